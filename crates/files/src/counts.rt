// Counts of wear as bytes: four for each, high byte first.
fn at(i: usize, n: usize) -> usize {
    i.wrapping_add(n)
}

// Where the n-th count stands, of those from a place on.
fn place(first: usize, n: usize) -> usize {
    at(first, n.wrapping_mul(4))
}

fn count_in(bytes: &[u8], i: usize) -> u32 {
    let a = parts::byte_at(bytes, i);
    let b = parts::byte_at(bytes, at(i, 1));
    let c = parts::byte_at(bytes, at(i, 2));
    let d = parts::byte_at(bytes, at(i, 3));
    parts::joined(a, b, c, d) as u32
}

// As many counts as there is room for, from a place on.
pub fn take(bytes: &[u8], first: usize, counts: &mut [u32]) {
    for (i, count) in counts.iter_mut().enumerate() {
        *count = count_in(bytes, place(first, i));
    }
}

pub fn put(out: &mut [u8], first: usize, counts: &[u32]) {
    for (i, count) in counts.iter().enumerate() {
        parts::copy(out, place(first, i), &parts::word(*count as usize));
    }
}
