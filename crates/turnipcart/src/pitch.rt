// A beat table at concert pitch.
ghost use Rattle.turnipcart.specs.Answers.{Moves};

// Every table, every move and every length of the second table are answered: the refusal is returned, and the moved words stand in
// `second`, with what it held behind them.
#[unsafe(no_mangle)]
pub extern "C" fn turnipcart_concert(beats: &[u32], shift: i32, second: &mut [u32]) -> usize
    ensures { Moves shift beats.now second.old result second.new }
{
    concert::concert_pitch(beats, shift, second)
        .err()
        .map_or(0, usize::from)
}
