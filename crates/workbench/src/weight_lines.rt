// The fitters' weight sheet, printed from the table off which a value reading takes its weights.
use crate::tell::Done;
use weight_sheet::Row;

fn row_line(rt: HostRuntime, minute: usize, row: Row) -> Done {
    crate::tell::line(
        rt,
        b"",
        format_args!("{minute} {} {} {}", row.ordinate, row.slope, row.curvature),
    )
}

// A heading, and a line for each minute from 0 to the gap. What cannot be written is told once.
fn print_gap(rt: HostRuntime, gap: usize) -> Done {
    crate::tell::line(
        rt,
        b"",
        format_args!("gap of {gap} minutes: minute ordinate slope curvature"),
    )?;
    for minute in 0..=gap {
        if let Some(row) = Row::at(gap, minute) {
            row_line(rt, minute, row)?;
        }
    }
    Ok(())
}

pub(crate) fn print(rt: HostRuntime) -> Done {
    for gap in [15, 30, 60] {
        print_gap(rt, gap)?;
    }
    crate::tell::print(
        rt,
        b"The right knot's weights stand in the row of the gap less the minute, and its slope's counts with a minus.\n",
    )
}
