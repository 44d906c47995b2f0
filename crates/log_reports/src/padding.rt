//! Padding.
ghost use Rattle.std.specs.Prelude.{◌≡◌};
ghost use Rattle.log_reports.specs.Padding.{is_filled};

/// Whether each byte is FF.
pub(crate) fn is_filled(bytes: &[u8]) -> bool
    ensures { result ≡ is_filled bytes.now }
{
    for byte in bytes {
        if *byte != 255 {
            return false;
        }
    }
    true
}
