// What a loss of power in a cycle did to a memory.

// Whether a place is one of so many from one on.
pub fn inside(i: usize, from: usize, many: usize) -> bool {
    from <= i && i - from < many
}

// How many bytes of two memories differ, but for so many from a place on.
pub fn differing(before: &[u8], after: &[u8], from: usize, many: usize) -> usize {
    before
        .iter()
        .zip(after)
        .enumerate()
        .filter(|(i, (old, new))| !inside(*i, from, many) && old != new)
        .count()
}
