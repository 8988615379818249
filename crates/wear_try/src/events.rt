// Events as they are typed: the letters of document 01, `X` and `Z` for the codes 9 and 255, `<A0>` for the nine clocks of a byte that end with the
// data line released, `(A0)` with it low. Anything else is passed over.
use cases::Laid;

// ---- a byte

// From the high bit on, and the ninth clock.
fn lay_byte(events: &mut Laid, byte: u8, ninth: u8) {
    for k in 0..8u32 {
        events.push(byte >> (7 - k) & 1);
    }
    events.push(ninth);
}

// The byte with one digit more, the high one gone.
fn with_digit(byte: u8, x: u8) -> u8 {
    let d = text::value(x);
    if d < 16 {
        return byte % 16 * 16 + d;
    }
    byte
}

// ---- letters

fn code_of(x: u8) -> Option<u8> {
    match x {
        b'0' => Some(0),
        b'1' => Some(1),
        b'S' => Some(2),
        b'P' => Some(3),
        b'E' => Some(4),
        b'L' => Some(5),
        b'H' => Some(6),
        b'F' => Some(7),
        b'R' => Some(8),
        b'X' => Some(9),
        b'Z' => Some(255),
        _ => None,
    }
}

// The next letter; what was read of a byte goes in and comes back.
fn turn(events: &mut Laid, byte: Option<u8>, x: u8) -> Option<u8> {
    match (byte, x) {
        (Some(byte), b'>') => {
            lay_byte(events, byte, 1);
            None
        }
        (Some(byte), b')') => {
            lay_byte(events, byte, 0);
            None
        }
        (Some(byte), _) => Some(with_digit(byte, x)),
        (None, b'<' | b'(') => Some(0),
        (None, _) => {
            if let Some(code) = code_of(x) {
                events.push(code);
            }
            None
        }
    }
}

// ---- the list

// Where a number of events is asked for, the list is repeated up to it.
pub fn read<'a>(typed: &[u8], last: usize, room: &'a mut [u8]) -> Laid<'a> {
    let mut events = Laid::new(room);
    let mut byte = None;
    for x in typed {
        byte = turn(&mut events, byte, *x);
    }
    events.repeat(last);
    events
}
