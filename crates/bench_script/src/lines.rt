// The lines of a script, read one by one.
use std::io;

// The mark that some editors put in front of a text.
const BYTE_ORDER_MARK: &str = "\u{feff}";

#[derive(Clone, Copy)]
pub enum Line<'a> {
    // without the line feed, and clean
    Text(&'a [u8]),
    // more bytes than can be kept
    Long,
    End,
}

fn read_byte(input: &mut impl io::Read) -> io::Result<Option<u8>> {
    let mut byte = [0];
    let got = input.read(&mut byte)?;
    Ok((got != 0).then_some(byte[0]))
}

// A line of n bytes, cleaned, if the buffer has them all.
fn whole<'a>(line: &'a mut [u8], n: usize) -> Line<'a> {
    match line.get_mut(..n) {
        Some(text) => {
            clean(text);
            Line::Text(text)
        }
        None => Line::Long,
    }
}

// The next line, kept in the buffer and cleaned. The last one may lack its line feed. std's read_until would keep all of a line, however long.
pub fn read_line<'a>(input: &mut impl io::Read, line: &'a mut [u8]) -> io::Result<Line<'a>> {
    let mut n: usize = 0;
    // nothing says that the input ends, so the bytes are counted up to a number that no line reaches
    for _ in 0..u64::MAX {
        match read_byte(input)? {
            None if n == 0 => return Ok(Line::End),
            None | Some(b'\n') => return Ok(whole(line, n)),
            Some(byte) => {
                if let Some(place) = line.get_mut(n) {
                    *place = byte;
                }
                n = n.saturating_add(1);
            }
        }
    }
    Ok(Line::End)
}

fn cleaned(byte: u8) -> u8 {
    match byte {
        b'\t' | b'\r' => b' ',
        _ if byte.is_ascii_control() => b'?',
        _ => byte,
    }
}

// Tabs and carriage returns become blanks, other control bytes question marks.
pub fn clean(line: &mut [u8]) {
    for byte in line.iter_mut() {
        *byte = cleaned(*byte);
    }
}

// Without the byte order mark that some editors put in front of a text.
pub fn without_mark(line: &[u8]) -> &[u8] {
    line.strip_prefix(BYTE_ORDER_MARK.as_bytes())
        .unwrap_or(line)
}

// A comment or an empty line.
pub fn is_comment(s: &[u8]) -> bool {
    matches!(s.first(), None | Some(b'#'))
}
