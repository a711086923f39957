// Pages of any size, and protection that is given as a range of page numbers.
ghost use Rattle.std.specs.Prelude.{◌≡◌};
ghost use Rattle.memory.specs.Pages.{meets as meets_is, touched as touched_is};

use crate::PageRun;

// The pages that so many bytes from a place on touch. Without a byte, or with pages of no length, there are none.
#[tactic(auto, unfolding(crate::specs::Pages::touched))]
pub fn touched(size: u32, place: u32, count: u32) -> PageRun
    ensures { result ≡ touched_is size place count }
{
    if size == 0 || count == 0 {
        return PageRun::NONE;
    }
    let first = place / size;
    let last = (u64::from(place) + u64::from(count) - 1) / u64::from(size);
    PageRun {
        first,
        count: (last - u64::from(first) + 1) as u32,
    }
}

// Whether a range of page numbers, both ends in, covers some page of a run, on a chip that has so many pages in total. No page is
// looked at: it is enough to compare the ends.
#[tactic(auto, using(crate::proofs::Runs::some_covered), unfolding(crate::specs::Pages::meets, crate::specs::Pages::some_page))]
pub fn meets(total: u32, low: u8, high: u8, pages: PageRun) -> bool
    ensures { result ≡ meets_is total low high pages }
{
    let first = u64::from(pages.first);
    let behind = first + u64::from(pages.count);
    let end = (u64::from(high) + 1).min(u64::from(total));
    first.max(u64::from(low)) < behind.min(end)
}
