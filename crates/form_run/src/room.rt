ghost use Rattle.std.specs.Prelude.{◌≡◌, [], ◌∷◌, OnOk};
ghost use Rattle.row_laws.specs.Flat.{numbers_of};
ghost use Rattle.form_basis.specs.ReadRows.{IsRead, combined, read as read_row};

use affine_forms::WantOfMemory;
use form_basis::{Basis, coefficient, value};
use short_run::ShortTableau;
use std::alloc::Global;

/// Room for a row that is read off its form, and for the numbers of a form or a row. What it held before tells nothing.
#[derive(Drop)]
pub struct RowRoom {
    pub row: ShortTableau,
    pub(crate) numbers: Vec<i64>,
}

impl RowRoom {
    /// Room that is empty. It takes no memory.
    pub fn new(alloc: Global) -> RowRoom
        ensures { result.row.rows ≡ [] }
    {
        RowRoom {
            row: ShortTableau::new(alloc, 0),
            numbers: Vec::new(alloc),
        }
    }
}

// Makes of the numbers those of the form's row before it is divided.
fn read(
    numbers: &mut Vec<i64>,
    places: &ShortTableau,
    basis: &Basis,
    form: &[i64],
) -> Result<(), WantOfMemory>
    requires { IsRead places.now basis.now form.now }
    ensures { OnOk result (numbers.new.items ≡ numbers_of (combined places.now basis.now form.now)) }
{
    numbers.clear();
    numbers.push(basis.scale)?;
    for k in 0..places.unknowns() {
        numbers.push(coefficient(places, basis, form, k))?;
    }
    numbers.push(value(places, basis, form))?;
    Ok(())
}

// Reads the form's row.
pub(crate) fn read_form(
    room: &mut RowRoom,
    places: &ShortTableau,
    basis: &Basis,
    form: &[i64],
) -> Result<(), WantOfMemory>
    requires { IsRead places.now basis.now form.now }
    ensures { OnOk result (room.new.row ≡ record {
      unknowns = places.now.unknowns;
      width = 0;
      rows = read_row places.now basis.now form.now ∷ [];
    }) }
{
    read(&mut room.numbers, places, basis, form)?;
    room.row.restart(places.unknowns());
    room.row.push_divided(&room.numbers)?;
    Ok(())
}
