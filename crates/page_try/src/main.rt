// Looks at pages of every part, in buffers of the right and of wrong lengths, and prints what each look shows.
#![tactic(auto)]

use cases::Lent;
use cases::told::tell;
use host::Host;
use page::Place;
use parts::{ArrayAddress, Verdict};
use text::wide;

// A part and the buffers that are lent for it.
#[derive(Clone, Copy)]
struct Look<'a> {
    part: u8,
    array: &'a [u8],
    id: &'a [u8],
}

// ---- what is printed

fn tell_bytes(host: &Host, shown: &[u8]) {
    tell(host, b"", shown.len());
    host.say(b" bytes");
    if let (Some(from), Some(to)) = (shown.first(), shown.last()) {
        tell(host, b", ", wide(*from));
        tell(host, b" to ", wide(*to));
    }
    host.say(b"\n");
}

fn tell_verdict(host: &Host, verdict: Verdict) {
    match verdict {
        Ok(()) => {
            host.say(b"shown, ");
        }
        Err(r) => {
            tell(host, b"refused ", wide(parts::number(r)));
            host.say(b", ");
        }
    }
}

fn tell_place(host: &Host, place: Place) {
    match place {
        Place::Array(a) => tell(host, b"address ", a.0),
        Place::Ident => {
            host.say(b"identification page");
        }
    }
}

// ---- the looks

impl<'a> Look<'a> {
    // The first bytes of both buffers alone.
    fn cut(self, array: usize, id: usize) -> Look<'a> {
        Look {
            part: self.part,
            array: cases::first(self.array, array),
            id: cases::first(self.id, id),
        }
    }

    fn tell_lent(self, host: &Host) {
        tell(host, b"part ", wide(self.part));
        tell(host, b", lent ", self.array.len());
        tell(host, b" and ", self.id.len());
        host.say(b", ");
    }

    fn one(self, host: &Host, place: Place) {
        self.tell_lent(host);
        tell_place(host, place);
        host.say(b": ");
        tell_verdict(
            host,
            page::look_refusal(self.part, self.array, self.id, place),
        );
        tell_bytes(host, page::look(self.part, self.array, self.id, place));
    }

    fn at(self, host: &Host, a: usize) {
        self.one(host, Place::Array(ArrayAddress(a)));
    }

    // Buffers of the part's lengths: the edges of the first page, of the array, and of all numbers.
    fn right(self, host: &Host, page: usize) {
        let size = self.array.len();
        for a in [
            0,
            page.saturating_sub(1),
            page,
            100,
            size.saturating_sub(1),
            size,
            usize::MAX,
        ] {
            self.at(host, a);
        }
        self.one(host, Place::Ident);
    }

    // One byte too few, and one too many, of either buffer.
    fn wrong(self, host: &Host, m: usize, n: usize) {
        self.cut(m.saturating_sub(1), n).at(host, 0);
        self.cut(m.saturating_add(1), n).at(host, m);
        self.cut(m, n.saturating_add(1)).at(host, 0);
        if 0 < n {
            self.cut(m, n - 1).one(host, Place::Ident);
        }
    }

    // The lent buffers hold one byte more than any part's.
    fn every(self, host: &Host) {
        let f = parts::facts_of(self.part);
        let n = parts::id_size(f);
        self.cut(f.size, n).right(host, f.page);
        self.wrong(host, f.size, n);
    }
}

fn main(rt: HostRuntime) {
    let host = Host::new(rt);
    let Lent { array, id } = Lent::filled();
    let look = |part| Look {
        part,
        array: &array,
        id: &id,
    };
    for part in 0..7 {
        look(part).every(&host);
    }
    look(255).at(&host, 0);
}
