ghost use Rattle.std.specs.Prelude.{◌≡◌, ◌+◌, ◌*◌, ◌^◌, ◌≤◌};
ghost use Rattle.hl_words.specs.Cells.{first_cell};

use hl_model::Sizes;

/// The first cell of a page. From it on the page has P cells.
pub fn first_cell(sizes: Sizes, page: u64) -> u64
    ensures value { result ≡ first_cell sizes page }
    ensures room { result + sizes.page_size ≤ sizes.frames * sizes.page_size }
    ensures few { result + sizes.page_size ≤ 2 ^ 36 }
{
    page % sizes.frames() * sizes.page_size()
}
