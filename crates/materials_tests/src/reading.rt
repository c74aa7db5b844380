use crate::builders::Told::{Accepted, InRecord, Refused};
use crate::builders::{EXAMPLE, Told, told_of};
use arithmetic::choice::{OverflowChoice, RoundingChoice};
use forms::form::Form;
use materials::look_up::look_up;
use materials::read::read;
use materials::round_trip::rewrite;
use std::test::Fail;

#[test]
fn the_example_is_read(rt: HostRuntime) -> Result<(), Fail> {
    let records = read(rt.alloc(), &EXAMPLE)?;
    assert!(rt; records.len() == 2);
    let oak = &records[0];
    let wall = &records[1];
    let choices = oak.choices()?;
    assert_eq!(rt;
        (choices.form, choices.rounding, choices.overflow),
        (
            Form::Direct1,
            RoundingChoice::TowardZero,
            OverflowChoice::Wrap,
        )
    );
    assert!(rt;
        oak.name.as_slice() == b"oak panel".as_slice()
            && oak.whole_bits == 4
            && oak.fraction_bits == 4
    );
    assert!(rt;
        oak.feedforward.as_slice() == [8].as_slice() && oak.feedback.as_slice() == [-8].as_slice()
    );
    assert!(rt;
        wall.feedforward.as_slice() == [16].as_slice()
            && wall.feedback.as_slice() == [-16].as_slice()
    );
    Ok(())
}

#[test]
fn the_setting_of_the_example(rt: HostRuntime) -> Result<(), Fail> {
    let records = read(rt.alloc(), &EXAMPLE)?;
    assert!(rt; records.len() == 2);
    let oak = &records[0];
    let setting = oak.setting(oak.choices()?);
    assert_eq!(rt; (setting.whole, setting.fraction), (4, 4));
    assert_eq!(rt;
        (setting.rounding, setting.overflow),
        (RoundingChoice::TowardZero, OverflowChoice::Wrap)
    );
    Ok(())
}

#[test]
fn a_name_is_looked_up(rt: HostRuntime) -> Result<(), Fail> {
    let Ok(wall) = look_up(&EXAMPLE, b"echo wall") else {
        return Err(Fail::new("not found"));
    };
    assert_eq!(rt; (wall.number, wall.offset), (2, 39));
    assert!(rt; wall.bytes == &EXAMPLE[39..64]);
    let Ok(oak) = look_up(&EXAMPLE, b"oak panel") else {
        return Err(Fail::new("not found"));
    };
    assert_eq!(rt; (oak.number, oak.offset), (1, 14));
    let Err(refusal) = look_up(&EXAMPLE, b"pine") else {
        return Err(Fail::new("found"));
    };
    assert_eq!(rt; Told::from(refusal), Refused(11));
    Ok(())
}

#[test]
fn the_example_is_written_again(rt: HostRuntime) {
    let mut bytes = [7; 70];
    assert_eq!(rt; rewrite(rt.alloc(), &EXAMPLE, &mut bytes), Ok(64));
    assert!(rt; &bytes[0..64] == &EXAMPLE[0..64]);
    assert!(rt; &bytes[64..70] == &[7; 6][0..6]);
}

// A byte of the example changed: its place, its new value, and what is told.
const CHANGES: [(usize, u8, Told); 45] = [
    (0, 2, Refused(2)),
    (1, 0, Refused(3)),
    (1, 1, Refused(3)),
    (5, 15, Refused(3)),
    (11, 38, Refused(3)),
    (13, 24, Refused(3)),
    (13, 26, Refused(3)),
    (14, 0, InRecord(4, 1)),
    (14, 41, InRecord(4, 1)),
    (14, 40, InRecord(4, 1)),
    (14, 18, InRecord(4, 1)),
    (14, 17, InRecord(4, 1)),
    (15, 31, InRecord(4, 1)),
    (15, 32, Accepted),
    (15, 126, Accepted),
    (15, 127, InRecord(4, 1)),
    (48, 127, InRecord(4, 2)),
    (24, b'2', Accepted),
    (24, b'T', Accepted),
    (24, b'3', InRecord(5, 1)),
    (25, b'F', Accepted),
    (25, b'N', Accepted),
    (25, b'z', InRecord(5, 1)),
    (26, b'S', Accepted),
    (26, b'X', Accepted),
    (26, b'Z', InRecord(5, 1)),
    (27, 0, InRecord(6, 1)),
    (27, 3, InRecord(6, 1)),
    (27, 20, Accepted),
    (27, 21, InRecord(6, 1)),
    (27, 255, InRecord(6, 1)),
    (28, 0, InRecord(6, 1)),
    (28, 3, InRecord(6, 1)),
    (28, 20, Accepted),
    (29, 0, InRecord(7, 1)),
    (29, 9, InRecord(8, 1)),
    (29, 10, InRecord(7, 1)),
    (30, 8, InRecord(8, 1)),
    (30, 9, InRecord(7, 1)),
    (30, 0, InRecord(8, 1)),
    (34, 127, Accepted),
    (34, 128, InRecord(9, 1)),
    (38, 128, Accepted),
    (38, 127, InRecord(9, 1)),
    (63, 127, InRecord(9, 2)),
];

#[test]
fn one_byte_is_changed(rt: HostRuntime) {
    for (at, byte, told) in CHANGES {
        let mut file = EXAMPLE;
        assert!(rt; at < 64);
        file[at] = byte;
        assert_eq!(rt; told_of(&file), told);
    }
}

#[test]
fn small_files(rt: HostRuntime) {
    let told = [
        told_of(&[]),
        told_of(&[0]),
        told_of(&[0, 0]),
        told_of(&[0, 0, 0]),
        told_of(&[0, 1]),
        told_of(&[0, 1, 0, 0, 0, 8, 0]),
        told_of(&[0, 1, 0, 0, 0, 8, 0, 0]),
        told_of(&[2, 1]),
    ];
    assert_eq!(rt;
        told,
        [
            Refused(1),
            Refused(1),
            Accepted,
            Refused(3),
            Refused(2),
            Refused(2),
            InRecord(4, 1),
            Refused(2),
        ]
    );
}

#[test]
fn noise_ends_at_once(rt: HostRuntime) {
    let noise = [7; 65001];
    assert_eq!(rt; told_of(&noise), Refused(1));
    assert_eq!(rt; told_of(&noise[0..65000]), Refused(2));
}

// The second record is given the first one's name.
#[test]
fn a_name_is_used_twice(rt: HostRuntime) {
    let mut file = EXAMPLE;
    file[40..49].copy_from_slice(b"oak panel");
    assert_eq!(rt; told_of(&file), InRecord(10, 2));
}
