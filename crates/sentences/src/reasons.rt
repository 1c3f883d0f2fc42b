// The reasons of the refusals 1 to 22.
ghost use Rattle.std.specs.Prelude.{◌≡◌};
ghost use Rattle.notices.specs.Reasons.{HasReason, reason_of};

// The reason of a number. No table of slices: its pointers would be set when a program is loaded, and the library has no variables.
#[tactic(auto, unfolding(notices::specs::Reasons::reason_of, notices::specs::Reasons::reasons))]
pub fn reason_of(number: u64) -> &'static [u8]
    requires { HasReason number }
    ensures { result.now ≡ reason_of number }
{
    match number {
        1 => b"no such place",
        2 => b"bytes end early",
        3 => b"malformed group number",
        4 => b"size out of range",
        5 => b"factor out of range",
        6 => b"factor must not be zero",
        7 => b"bytes behind the matrix",
        8 => b"wrong choice of rows or columns",
        9 => b"wrong list, item or number",
        10 => b"lent output too short",
        11 => b"source place empty",
        12 => b"target place holds a matrix",
        13 => b"sizes differ",
        14 => b"result exponent out of range",
        15 => b"wrong time stamps",
        16 => b"zero breaks the pattern",
        17 => b"chosen submatrix singular",
        18 => b"wrong count of steps",
        19 => b"low value zero or above its high value",
        20 => b"count too large",
        21 => b"nothing pending",
        _ => b"tolerance too large",
    }
}
