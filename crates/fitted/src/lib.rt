// Buffers that hold the largest part, cut to a part: its array, its identification page and the counts of its groups, with nothing more.
#![tactic(auto)]

ghost use Rattle.std.specs.Prelude.{◌≡◌, take};
ghost use Rattle.parts.specs.Table.{facts_of, id_size_of, groups_of};

// The first n; all of a buffer that has fewer.
fn cut<T>(buffer: &mut [T], n: usize) -> &mut [T]
    ensures { result.now ≡ take n buffer.old }
{
    let most = n.min(buffer.len());
    &mut buffer[..most]
}

// The first n bytes; all of a buffer that has fewer.
pub fn first(buffer: &mut [u8], n: usize) -> &mut [u8]
    ensures { result.now ≡ take n buffer.old }
{
    cut(buffer, n)
}

// As much of a buffer as the part's array has.
pub fn array(part: u8, buffer: &mut [u8]) -> &mut [u8]
    ensures { result.now ≡ take (facts_of part).size buffer.old }
{
    first(buffer, parts::facts_of(part).size)
}

// As much of a buffer as the part's identification page has: nothing where the part has none.
pub fn id(part: u8, buffer: &mut [u8]) -> &mut [u8]
    ensures { result.now ≡ take (id_size_of (facts_of part)) buffer.old }
{
    first(buffer, parts::id_size(parts::facts_of(part)))
}

// As much of a buffer as the part has groups.
#[tactic(auto, unfolding(parts::specs::Table::groups_of))]
pub fn counts(part: u8, buffer: &mut [u32]) -> &mut [u32]
    ensures { result.now ≡ take (groups_of (facts_of part)) buffer.old }
{
    let f = parts::facts_of(part);
    cut(buffer, f.size / f.group)
}
