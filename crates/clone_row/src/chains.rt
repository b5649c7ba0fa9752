ghost use Rattle.std.specs.Prelude.{◌≡◌};
ghost use Rattle.clone_row.specs.Chains.{behind};

use clone_page::{NO_PAGE, Page};

/// The page behind a page on its chain. None at the chain's end, and for an unused page.
pub fn next_page(page: &Page) -> Option<u32>
    ensures { result ≡ behind page.now }
{
    if page.kind() == 0 || page.next() == NO_PAGE {
        return None;
    }
    Some(page.next())
}
