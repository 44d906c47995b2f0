//! Items of an array, or members of an object, with a comma before each but the first.
ghost use Rattle.std.specs.Prelude.{◌≡◌, ◌++◌, List, ℕ, false, OnOk};
ghost use Rattle.serde_json.specs.Written.{comma_if};
ghost use Rattle.log_lines.specs.Joined.{joined};

use std::alloc::AllocError;
use text_digits::put_text;

/// What stands in a list.
pub(crate) trait Listed {
    ghost listed: { Self → List ℕ };

    /// Puts its text there.
    fn put_listed(&self, out: &mut Vec<u8>) -> Result<(), AllocError>
        ensures { OnOk result (out.new.items ≡ out.old.items ++ listed self.now) };
}

/// An item, behind others or not.
fn put_next<T: Listed>(out: &mut Vec<u8>, later: bool, item: &T) -> Result<(), AllocError>
    ensures { OnOk result (out.new.items ≡ out.old.items ++ (comma_if later ++ T.listed item.now)) }
{
    if later {
        put_text(out, ",")?;
    }
    item.put_listed(out)
}

fn put_items<T: Listed>(out: &mut Vec<u8>, items: &[T]) -> Result<(), AllocError>
    ensures { OnOk result (out.new.items ≡ out.old.items ++ joined false T.listed items.now) }
{
    let mut later = false;
    for item in items {
        put_next(out, later, item)?;
        later = true;
    }
    Ok(())
}

/// The items between what opens the list and what closes it.
pub(crate) fn put_list<T: Listed>(
    out: &mut Vec<u8>,
    start: &str,
    items: &[T],
    end: &str,
) -> Result<(), AllocError>
    ensures { OnOk result (out.new.items ≡ out.old.items ++ (start.now ++ (joined false T.listed items.now ++ end.now))) }
{
    put_text(out, start)?;
    put_items(out, items)?;
    put_text(out, end)
}
