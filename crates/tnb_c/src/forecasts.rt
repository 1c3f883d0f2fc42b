// Forecasts for programs in C and Rust: the steps that an operation will make, told by its sizes alone.
ghost use Rattle.std.specs.Prelude.{◌≡◌};
ghost use Rattle.shelf.specs.Run.{operate, forecast};
ghost use Rattle.tnb_c.specs.Answers.{checked, steps_of, ForetoldAnswer};

use crate::Steps;
use operations::Task;
use places::{Shelf, check};

// The steps that an operation will make.
fn foretold(shelf: Shelf, task: Task) -> Steps
    ensures value { result ≡ steps_of (checked shelf (forecast task)).report }
    ensures foretold_answer { ForetoldAnswer shelf (operate task) result }
{
    if check::is_good(shelf) {
        return operations::forecast(shelf, task).into();
    }
    Steps::foreign()
}

// The steps that the product of two places will make.
#[unsafe(no_mangle)]
pub extern "C" fn tnb_forecast_product(shelf: Shelf, left: usize, right: usize) -> Steps
    ensures value { result ≡ steps_of (checked shelf (forecast (Task.Product left right))).report }
    ensures foretold_answer { ForetoldAnswer shelf (operate (Task.Product left right)) result }
{
    foretold(shelf, Task::Product { left, right })
}

// The steps that the re-signed inverse of a place will make.
#[unsafe(no_mangle)]
pub extern "C" fn tnb_forecast_inverse(shelf: Shelf, source: usize) -> Steps
    ensures value { result ≡ steps_of (checked shelf (forecast (Task.Inverse source))).report }
    ensures foretold_answer { ForetoldAnswer shelf (operate (Task.Inverse source)) result }
{
    foretold(shelf, Task::Inverse(source))
}

// The steps that the converse of a place will make.
#[unsafe(no_mangle)]
pub extern "C" fn tnb_forecast_converse(shelf: Shelf, source: usize) -> Steps
    ensures value { result ≡ steps_of (checked shelf (forecast (Task.Converse source))).report }
    ensures foretold_answer { ForetoldAnswer shelf (operate (Task.Converse source)) result }
{
    foretold(shelf, Task::Converse(source))
}

// The steps that the transpose of a place will make: none.
#[unsafe(no_mangle)]
pub extern "C" fn tnb_forecast_transpose(shelf: Shelf, source: usize) -> Steps
    ensures value { result ≡ steps_of (checked shelf (forecast (Task.Transpose source))).report }
    ensures foretold_answer { ForetoldAnswer shelf (operate (Task.Transpose source)) result }
{
    foretold(shelf, Task::Transpose(source))
}

// The steps that the chosen rows and columns of a place, given as masks, will make.
#[unsafe(no_mangle)]
pub extern "C" fn tnb_forecast_submatrix(
    shelf: Shelf,
    source: usize,
    rows: u8,
    columns: u8,
) -> Steps
    ensures value { result ≡ steps_of (checked shelf (forecast (Task.Submatrix source rows columns))).report }
    ensures foretold_answer { ForetoldAnswer shelf (operate (Task.Submatrix source rows columns)) result }
{
    foretold(
        shelf,
        Task::Submatrix {
            source,
            rows,
            columns,
        },
    )
}

// The steps that the Schur complement of the first k rows and columns of a place will make.
#[unsafe(no_mangle)]
pub extern "C" fn tnb_forecast_schur(shelf: Shelf, source: usize, k: usize) -> Steps
    ensures value { result ≡ steps_of (checked shelf (forecast (Task.Schur source k))).report }
    ensures foretold_answer { ForetoldAnswer shelf (operate (Task.Schur source k)) result }
{
    foretold(shelf, Task::Schur { source, k })
}
