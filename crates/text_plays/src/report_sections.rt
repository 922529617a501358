//! Turns, blocks and rows in a report, and what rows show.

use raid_base::{Cell, Content, HostNo, MemorySink, RowNo, Shown, Turn};
use report_text::{Final, shown, write_report};
use script_text::read_script;
use std::test::Fail;

/// 64 bytes, the first of them another.
fn uneven(first: u8, other: u8) -> [u8; 64] {
    let mut bytes = [other; 64];
    bytes[0] = first;
    bytes
}

pub fn cell(byte: u8, lost: u16) -> Option<Cell> {
    Some(Cell {
        bytes: [byte; 64],
        lost,
    })
}

const SECTIONS: &[u8] = b"report 1
turns 2
turn 1 1
turn 0 1099511627775
block a1 0 hidden
block a1 1 lost
block a1 2 01000000000000000000000000000000000000000000000000000000000000000000000000000000000000000000000000000000000000000000000000000000
block a1 3 00
row 0 closed
row 1 open
end
";

/// Three devices: row 0 has its parity on bay 2, row 1 on bay 1. The first two blocks are units of row 1.
const SCRIPT: &[u8] =
    b"raid 1\ndevices 3\nrows 2\nmode order\npatience 3\ntries 2\nobject a1 1 0\nend\n";

#[test]
fn sections_have_their_lines(rt: HostRuntime) -> Result<(), Fail> {
    let script = read_script(rt.alloc(), SCRIPT)?;
    let turns = [
        Turn {
            host: HostNo(1),
            moment: 1,
        },
        Turn {
            host: HostNo(0),
            moment: 1099511627775,
        },
    ];
    let bytes = uneven(1, 0);
    let view = Final {
        script: &script,
        results: &[],
        contents: &[],
        turns: &turns,
        cells: &[
            Some(Cell { bytes, lost: 0 }),
            cell(0, 0),
            None,
            cell(0, 2),
            None,
            None,
        ],
        opened: &[false, true],
    };
    let mut sink = MemorySink::make(rt.alloc(), 1000, Vec::new(rt.alloc()))?;
    write_report(&mut sink, &view)?;
    assert!(rt; sink.written() == SECTIONS);
    Ok(())
}

/// What a report shows of a unit of a row, and none where there is no such unit.
fn shown_of(view: &Final<'_>, row: u16, unit: u8) -> Option<Shown> {
    let script = view.script;
    if unit >= script.objects.devices() - 1 {
        return None;
    }
    Some(shown(view, RowNo(row), unit))
}

#[test]
fn a_row_shows_what_can_be_told(rt: HostRuntime) -> Result<(), Fail> {
    let script = read_script(rt.alloc(), SCRIPT)?;
    let bytes = |byte| Shown::Seen(Content::Bytes([byte; 64]));
    let lost = Shown::Seen(Content::Lost);
    let cells = [
        cell(0x41, 0),
        None,
        cell(0x55, 0),
        cell(1, 0),
        cell(3, 1),
        None,
    ];
    let table = [
        (false, 0, 0, bytes(0x41)),
        (false, 0, 1, bytes(0x14)),
        (true, 0, 1, Shown::Hidden),
        (true, 0, 0, bytes(0x41)),
        (false, 1, 0, lost),
        (false, 1, 1, bytes(1)),
    ];
    for (is_open, row, unit, shown) in table {
        let view = Final {
            script: &script,
            results: &[],
            contents: &[],
            turns: &[],
            cells: &cells,
            opened: &[is_open, is_open],
        };
        assert_eq!(rt; shown_of(&view, row, unit), Some(shown));
    }
    Ok(())
}
