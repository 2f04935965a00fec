// Cases of the check of a sheet by a cabinet.
use cabinet::Cabinet;
use card::NONE;
use card::fault::Fault;
use cases::line::Case;

// The number of the verdict of a fresh cabinet that takes the pairs and the holds as orders.
pub(crate) fn check(case: &Case<'_>) -> Result<u8, Fault> {
    let mut cabinet = Cabinet::commission(case.card().build()?);
    cabinet.plan(case.part(1))?;
    for (cell, position) in (0..64u8).zip(case.part(2)) {
        if *position != NONE {
            cabinet.hold(cell, *position)?;
        }
    }
    Ok(cabinet.check(case.part(3))?.number())
}
