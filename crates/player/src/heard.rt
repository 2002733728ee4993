// What is heard on a beat.
ghost use Rattle.std.specs.Prelude.{◌≤◌};

// The word of a chord or of silence, as a beat without head has it.
#[derive(Clone, Copy)]
pub struct Sound {
    pub word: u32,
    ghost in_range: { word ≤ 4227858432 },
}
