use crate::builders::Told::{Accepted, InRecord, Refused};
use crate::builders::{PANEL, Sort, Told, largest, record};
use materials::check;
use materials::read::read;
use materials::write::write;
use std::alloc::Global;
use std::test::Fail;

// What a write of one record tells; a refused one leaves the destination.
fn written(heap: Global, name: &[u8], sort: Sort) -> Result<Told, Fail> {
    let mut bytes = [7; 200];
    let item = record(heap, name, sort)?;
    match write(&[item], &mut bytes) {
        Ok(_) => Ok(Accepted),
        Err(_) if bytes != [7; 200] => Err(Fail::new("the destination has changed")),
        Err(refusal) => Ok(Told::from(refusal)),
    }
}

#[test]
fn names_and_letters_are_refused(rt: HostRuntime) -> Result<(), Fail> {
    let heap = rt.alloc();
    let long = [b'n'; 41];
    assert_eq!(rt; written(heap, b"", PANEL)?, InRecord(4, 1));
    assert_eq!(rt; written(heap, &long[0..40], PANEL)?, Accepted);
    assert_eq!(rt; written(heap, &long, PANEL)?, InRecord(4, 1));
    assert_eq!(rt; written(heap, b"tab\t", PANEL)?, InRecord(4, 1));
    for letters in [('3', 'Z', 'W'), ('1', 'é', 'W'), ('1', 'Z', '1')] {
        let told = written(heap, b"a", Sort { letters, ..PANEL })?;
        assert_eq!(rt; told, InRecord(5, 1));
    }
    Ok(())
}

// Whole and fraction bits, and what is told.
const FORMATS: [((u8, u8), Told); 5] = [
    ((0, 8), InRecord(6, 1)),
    ((8, 0), InRecord(6, 1)),
    ((3, 4), InRecord(6, 1)),
    ((23, 1), Accepted),
    ((24, 1), InRecord(6, 1)),
];

#[test]
fn formats_are_refused(rt: HostRuntime) -> Result<(), Fail> {
    let heap = rt.alloc();
    for (bits, told) in FORMATS {
        assert_eq!(rt; written(heap, b"a", Sort { bits, ..PANEL })?, told);
    }
    Ok(())
}

// How many feedforward and feedback coefficients, and what is told.
const COUNTS: [((usize, usize), Told); 4] = [
    ((0, 1), InRecord(7, 1)),
    ((9, 8), Accepted),
    ((10, 8), InRecord(7, 1)),
    ((9, 9), InRecord(7, 1)),
];

#[test]
fn coefficients_are_refused(rt: HostRuntime) -> Result<(), Fail> {
    let heap = rt.alloc();
    for (counts, told) in COUNTS {
        assert_eq!(rt; written(heap, b"a", Sort { counts, ..PANEL })?, told);
    }
    for (coefficient, told) in [(-128, Accepted), (128, InRecord(9, 1))] {
        let sort = Sort {
            coefficient,
            ..PANEL
        };
        assert_eq!(rt; written(heap, b"a", sort)?, told);
    }
    Ok(())
}

// The last of several records is checked before the first byte is written.
#[test]
fn the_last_record_is_refused(rt: HostRuntime) -> Result<(), Fail> {
    let heap = rt.alloc();
    let mut bytes = [7; 70];
    let twice = [
        record(heap, b"a", PANEL)?,
        record(heap, b"b", PANEL)?,
        record(heap, b"a", PANEL)?,
    ];
    let Err(refusal) = write(&twice, &mut bytes) else {
        return Err(Fail::new("written"));
    };
    assert_eq!(rt; Told::from(refusal), InRecord(10, 3));
    assert_eq!(rt; bytes == [7; 70], true);
    Ok(())
}

#[test]
fn the_destination_is_too_short(rt: HostRuntime) -> Result<(), Fail> {
    let heap = rt.alloc();
    let mut bytes = [7; 25];
    let records = [record(heap, b"a", PANEL)?];
    let Err(refusal) = write(&records, &mut bytes[0..24]) else {
        return Err(Fail::new("written"));
    };
    assert_eq!(rt; Told::from(refusal), Refused(23));
    assert_eq!(rt; write(&records, &mut bytes), Ok(25));
    Ok(())
}

#[test]
fn the_largest_file(rt: HostRuntime) -> Result<(), Fail> {
    let heap = rt.alloc();
    let mut bytes = [0; 62466];
    assert_eq!(rt;
        write(largest(heap, 512)?.as_slice(), &mut bytes),
        Ok(62466)
    );
    assert_eq!(rt; check::check(&bytes), Ok(512));
    let again = read(heap, &bytes)?;
    assert_eq!(rt; again.len(), 512);
    let Err(refusal) = write(largest(heap, 513)?.as_slice(), &mut bytes) else {
        return Err(Fail::new("written"));
    };
    assert_eq!(rt; Told::from(refusal), Refused(2));
    Ok(())
}

// Overwrites the two bytes in which the names of the largest file differ.
fn make_names_equal(bytes: &mut [u8]) {
    for i in 0..512 {
        let at = 3074 + 116 * i;
        if at + 2 < bytes.len() {
            bytes[at + 1] = b'x';
            bytes[at + 2] = b'x';
        }
    }
}

// 512 records of one name in a file: refused at the second.
#[test]
fn equal_names_end_at_once(rt: HostRuntime) -> Result<(), Fail> {
    let heap = rt.alloc();
    let mut bytes = [0; 62466];
    let records = largest(heap, 512)?;
    assert_eq!(rt; write(records.as_slice(), &mut bytes), Ok(62466));
    make_names_equal(&mut bytes);
    let Err(refusal) = check::check(&bytes) else {
        return Err(Fail::new("accepted"));
    };
    assert_eq!(rt; Told::from(refusal), InRecord(10, 2));
    Ok(())
}
