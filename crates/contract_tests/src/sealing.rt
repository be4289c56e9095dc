//! A page that is unsealed is the seal of its payload under its number.
ghost use Rattle.std.specs.Prelude.{◌≡◌, IfOk};
ghost use Rattle.pages.specs.Sealed.{sealed};

use pages::{PageFault, Payload};

/// The payload whose seal under the number the page is.
///
/// Wrong bodies: the page's number is ignored.
pub fn unseal(number: u32, page: &[u8; 4096]) -> Result<Payload, PageFault>
    ensures sealed { IfOk result (λ payload. page.now ≡ sealed number payload) }
{
    pages::unseal(number, page)
}
