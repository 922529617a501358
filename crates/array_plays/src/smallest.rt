//! The smallest script, and the report of its play.

/// One host writes a block and reads it.
pub const SCRIPT: &[u8] =
    b"raid 1\ndevices 3\nrows 1\nmode order\npatience 3\ntries 2\nobject a 0\nhost 1\nwrite a 0 41\nread a 0 1\nend\n";

/// The report of its play: six requests of the write, and one of the read.
pub const REPORT: &[u8] =
    b"report 1\njob 1 0 wrote 1\njob 1 1 read 17 41\nturns 7\nturn 1 1\nturn 1 2\nturn 1 3\nturn 1 4\nturn 1 5\nturn 1 6\nturn 1 7\nblock a 0 41\nblock a 1 00\nrow 0 closed\nend\n";

/// How many bytes of that report this text is: none where it is no first part of the report.
pub fn part_of_report(text: &[u8]) -> Option<usize> {
    if REPORT.starts_with(text) {
        Some(text.len())
    } else {
        None
    }
}
