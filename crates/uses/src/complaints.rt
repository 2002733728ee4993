// A complaint's number, its line times 32 and the refusal's number, and which refusal a number says.
use super::numbers::first_told;
use refusals::{
    NO_COMPLAINT, NO_SECTION_RANK, Refusal, Why, complain_if, rank, refusal_at, refusal_of,
};

#[test]
fn numbers_tell_their_refusals(rt: HostRuntime) {
    let told = [
        (3 * 32 + 13, Why::NoChordBefore, 3),
        (131_071 * 32 + 22, Why::NoBeatWord, 131_071),
        (131_072 * 32 + 8, Why::BadLine, 131_072),
        (4_194_313, Why::NoSection, 0),
    ];
    for (number, why, line) in told {
        assert!(rt;
            refusal_at(number) == Some(Refusal { why, line }),
            "{number}"
        );
    }
}

#[test]
fn numbers_that_name_nothing_tell_nothing(rt: HostRuntime) {
    for number in [
        7 * 32,
        7 * 32 + 23,
        7 * 32 + 24,
        7 * 32 + 31,
        4_194_314,
        8_388_608,
    ] {
        assert!(rt; refusal_at(number).is_none(), "{number}");
    }
}

#[test]
fn complaints_have_their_numbers(rt: HostRuntime) {
    assert_eq!(rt; usize::from(rank(Why::BadKey, 0)), 4);
    assert_eq!(rt; usize::from(rank(Why::NotTimed, 3)), 122);
    assert_eq!(rt; usize::from(rank(Why::BadKey, 131_072)), 4_194_276);
    assert_eq!(rt; usize::from(complain_if(true, Why::Division, 2)), 76);
    assert_eq!(rt;
        usize::from(complain_if(false, Why::Division, 2)),
        8_388_608
    );
    assert_eq!(rt; usize::from(NO_COMPLAINT), 8_388_608);
    assert_eq!(rt; usize::from(NO_SECTION_RANK), 4_194_313);
}

#[test]
fn complaints_tell_what_their_numbers_tell(rt: HostRuntime) {
    for line in [0, 1, 65_536, 131_071] {
        let complaint = rank(Why::BadKey, line);
        let why = Why::BadKey;
        assert!(rt;
            refusal_of(complaint) == Some(Refusal { why, line }),
            "{line}"
        );
    }
    assert!(rt; refusal_of(NO_COMPLAINT).is_none());
    assert!(rt; refusal_of(NO_SECTION_RANK) == refusal_at(4_194_313));
}

#[test]
fn the_first_of_several_is_told(rt: HostRuntime) {
    let told = [
        (true, true, Why::Division, 5),
        (true, false, Why::Division, 5),
        (false, true, Why::NoChordBefore, 5),
        (false, false, Why::NoSection, 0),
    ];
    for (twelve, thirteen, why, line) in told {
        let first = first_told(twelve, thirteen, 5);
        assert!(rt; first == Some(Refusal { why, line }), "{twelve} {thirteen}");
    }
}
