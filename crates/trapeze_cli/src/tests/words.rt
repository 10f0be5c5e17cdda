//! The words of an exercise.

use crate::forms::{Command, command_of};
use std::test::Fail;

#[test]
fn an_exercise_has_a_number_of_up_to_twenty_digits(rt: HostRuntime) -> Result<(), Fail> {
    let alloc = rt.alloc();
    for (word, number) in [
        ("0", 0),
        ("41", 41),
        ("00000000000000000007", 7),
        ("18446744073709551615", u64::MAX),
    ] {
        let first = String::from_str(alloc, "exercise")?;
        let words = [first, String::from_str(alloc, word)?];
        assert!(rt;
            matches!(command_of(&words), Some(Command::Exercise(said)) if said == number),
            "{word}"
        );
    }
    Ok(())
}
