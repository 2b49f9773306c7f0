// The last pass of a search.
ghost use Rattle.search_passes.specs.Limit.{Limit};

// The last pass: 8 × (len - 1), or a number that no path's bits come to.
pub fn limit_of(len: u64) -> usize
    ensures { Limit len result }
{
    len.saturating_sub(1).saturating_mul(8).min(8192) as usize
}
