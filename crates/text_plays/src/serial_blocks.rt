//! Blocks of the serial array are set and read one by one.

use raid_base::{Content, Name};
use script_text::read_script;
use serial_array::SerialArray;
use std::alloc::Global;
use std::test::Fail;

const TWO_OBJECTS: &[u8] =
    b"raid 1\ndevices 5\nrows 6\nmode lock\npatience 1000\ntries 8\nobject a 3 0 2\nobject b 1\nend\n";

fn name(text: &[u8]) -> Result<Name, Fail> {
    Ok(Name::new(text).ok_or("no name")?)
}

const ZEROS: Content = Content::Bytes([0; 64]);

const ONES: Content = Content::Bytes([1; 64]);

/// Sets five blocks, and tells of each whether it is there.
fn set_blocks(array: &mut SerialArray, [a, b, c]: [Name; 3]) -> [bool; 5] {
    [
        array.set(&a, 6, Content::Lost),
        array.set(&a, 11, ONES),
        array.set(&a, 12, ONES),
        array.set(&b, 4, ONES),
        array.set(&c, 0, ONES),
    ]
}

/// The array of both objects after that, and which blocks were there.
fn array_of(alloc: Global, names: [Name; 3]) -> Result<(SerialArray, [bool; 5]), Fail> {
    let script = read_script(alloc, TWO_OBJECTS)?;
    let mut array = SerialArray::make(alloc, &script)?;
    let there = set_blocks(&mut array, names);
    Ok((array, there))
}

#[test]
fn sets_one_block(rt: HostRuntime) -> Result<(), Fail> {
    let [a, b, c] = [name(b"a")?, name(b"b")?, name(b"c")?];
    let (array, there) = array_of(rt.alloc(), [a, b, c])?;
    assert_eq!(rt; there, [true, true, false, false, false]);
    let table = [
        (a, 0, Some(ZEROS)),
        (a, 5, Some(ZEROS)),
        (a, 6, Some(Content::Lost)),
        (a, 7, Some(ZEROS)),
        (a, 11, Some(ONES)),
        (a, 12, None),
        (b, 3, Some(ZEROS)),
        (b, 4, None),
        (c, 0, None),
    ];
    for (name, block, want) in &table {
        assert!(rt; array.get(name, *block) == *want, "block {block}");
    }
    Ok(())
}
