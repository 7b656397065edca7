//! Makes the displays that HTTP requests ask for, from a core.
ghost use Rattle.std.specs.Prelude.{◌≡◌, false, IfOk};
ghost use Rattle.thes_base.specs.State.{State};
ghost use Rattle.thes_core.specs.CoreView.{IsViewOf};
ghost use Rattle.thes_service.specs.Service.{IsDisplayed};

use std::alloc::{AllocError, Global};
use thes_core::Core;
use thes_display::writing::{check_scheme, display_text};
use thes_requests::handler::QueryAnswer;
use thes_requests::page::Page;
use thes_requests::request::DisplayRequest;

/// Returns a display of a scheme in the state that the core holds, or the refusal of the scheme's
/// number.
pub(crate) fn display_of_core(
    core: &Core,
    alloc: Global,
    wanted: &DisplayRequest<'_>,
) -> Result<QueryAnswer, AllocError>
    requires { core.now.spent ≡ false }
    ensures { let asked = wanted.now in (s : State) → IsViewOf core.now s →
        IfOk result (IsDisplayed asked.kind asked.scheme asked.tag.now s) }
{
    if let Some(refusal) = check_scheme(core, wanted.scheme) {
        return Ok(QueryAnswer::No(refusal));
    }
    let text = display_text(alloc, core, wanted)?;
    Ok(QueryAnswer::Page(Page::new(text)))
}
