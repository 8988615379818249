// What is told of counts.
use cases::told::{tell, tell_fine};
use host::{Host, STDOUT};
use wear::Most;

// How many groups are told one by one.
const TOLD: usize = 40;

pub fn most(group: usize, count: usize) -> Most {
    Most {
        group,
        count: cases::counts::narrow(count),
    }
}

pub fn tell_most(host: &Host, m: Most) {
    tell(host, b"", m.group);
    tell(host, b" with ", m.count as usize);
}

// Each group with a count, in order, or the first of them and how many more there are.
pub fn tell_worn(host: &Host, counts: &[u32]) {
    let worn = counts.iter().enumerate().filter(|(_, count)| **count != 0);
    for (group, count) in worn.take(TOLD) {
        tell(host, b" ", group);
        tell(host, b":", *count as usize);
    }
    let all = counts.iter().filter(|count| **count != 0).count();
    if TOLD < all {
        tell(host, b" and more, in all ", all);
    }
}

// The total, which is wider than a count, and the group with most.
pub fn tell_report(host: &Host, part: u8, counts: &[u32]) {
    let r = wear::report(part, counts);
    tell_fine(host, r.verdict);
    host.say(b", total ");
    host.print_decimal(STDOUT, r.total);
    tell(host, b", most group ", r.group);
    tell(host, b" with ", r.count as usize);
}

// What the walk finds, for who begins.
pub fn tell_found(host: &Host, part: u8, counts: &[u32]) {
    let f = wear::worst_of(part, counts);
    host.say(b"; worst ");
    tell_fine(host, f.verdict);
    host.say(b", ");
    tell_most(host, f.worst);
}

// Whether a group with its count is what the walk finds, and the refusal of one that is not.
pub fn tell_borne(host: &Host, counts: &[u32], m: Most) {
    if wear::worst::borne_out(counts, m) {
        host.say(b"borne out, ");
    } else {
        host.say(b"not borne out, ");
    }
    tell_fine(host, wear::worst::verdict(counts, m));
}

// Of two groups the more worn.
pub fn tell_worse(host: &Host, a: Most, b: Most) {
    tell_most(host, wear::worst::worse(a, b));
}
