//! Text as it is written, with colours or without.
ghost use Rattle.std.specs.Prelude.{IfOk};
ghost use Rattle.wt_inspect.specs.Sheets.{DrawsLines};
ghost use Rattle.wt_inspect.specs.declared.arguments.Output.TheVariants.{Text as TextOutput};
ghost use Rattle.wt_inspection_views.specs.Escaped.{line_count};

use std::alloc::AllocError;
use wt_inspection_views::plain::PlainText;

/// Returns the bytes of a text, with its colours if `colors` is set.
pub(crate) fn bytes_of(text: PlainText, colors: bool) -> Result<Vec<u8>, AllocError>
    ensures { IfOk result (λ written. DrawsLines TextOutput «colors» (line_count text)
        written.items) }
{
    if colors {
        return text.into_painted();
    }
    Ok(text.into_text().into_bytes())
}
