// What the array alone, as Intel HEX or as raw bytes, does not hold of a chip: told, since it is left out.
use crate::tell::say;
use host::Host;
use state::Chip;

fn as_delivered(part: u8, id: &[u8], array: &mut [u8], own: &mut [u8]) -> bool {
    chip::deliver(part, array, own);
    id == own
}

fn id_delivered(part: u8, id: &[u8]) -> bool {
    let mut array = [0u8; 32768];
    let mut own = [0u8; 64];
    as_delivered(
        part,
        id,
        fitted::array(part, &mut array),
        fitted::id(part, &mut own),
    )
}

// `worn`: there are counts of wear.
pub fn tell(host: &Host, part: u8, chip: Chip, id: &[u8], worn: bool) {
    if !id_delivered(part, id) {
        say(
            host,
            b"sapwoodle: the identification page is not as delivered, and HEX and raw bytes do not hold it\n",
        );
    }
    if chip.line.core.locked {
        say(
            host,
            b"sapwoodle: the lock is not as delivered, and HEX and raw bytes do not hold it\n",
        );
    }
    if worn {
        say(
            host,
            b"sapwoodle: there are counts of wear, and HEX and raw bytes do not hold them\n",
        );
    }
}
