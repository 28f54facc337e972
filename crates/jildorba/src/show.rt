use std::fmt;
use store::cell::Cell;

pub const HELP: &str = "store deferring N   sets up a fresh bench of N cells, on the deferring store
store eager N       the same on the eager store
make D K V A B      fills root D with a new cell of kind K and value V; spends roots A and B for its links
copy S D            fills root D with the cell of root S
release R           spends root R
match R K A B       where the cell of root R has kind K: its value; spends R and fills A and B with its links
rebuild R K V A B   spends roots R, A and B and fills R with a new cell
look R              the kind and the value of the cell of root R
same R S            whether roots R and S name one cell
tally               the sum of all counts
roots               the roots in use, each with its cell
cells               every cell of the table
check HEX           how many records a rule has, or its first fault; HEX is its bytes, two hexadecimal digits each
help                this list
Roots are 0 to 15; for a link that the kind lacks write -, which stands for 255. A # starts a comment.
";

// The roots in use, each with the cell that it names.
#[derive(Clone, Copy)]
pub struct Roots<'a>(pub &'a [Option<u16>; 16]);

impl fmt::Display for Roots<'_> {
    fn fmt<W: fmt::Write>(&self, f: &mut fmt::Formatter<W>) -> fmt::Result {
        let Roots(roots) = *self;
        f.write_str("roots")?;
        if roots.iter().all(Option::is_none) {
            return f.write_str(" none");
        }
        for (r, root) in roots.iter().enumerate() {
            if let Some(cell) = root {
                write!(f, " {r}:{cell}")?;
            }
        }
        Ok(())
    }
}

// A line for each cell.
#[derive(Clone, Copy)]
pub struct Cells<'a>(pub &'a [Cell]);

impl fmt::Display for Cells<'_> {
    fn fmt<W: fmt::Write>(&self, f: &mut fmt::Formatter<W>) -> fmt::Result {
        for (i, cell) in self.0.iter().enumerate() {
            let Cell {
                kind,
                value,
                link0,
                link1,
                count,
                next,
            } = *cell;
            let link0 = Place(link0);
            let link1 = Place(link1);
            let next = Place(next);
            writeln!(
                f,
                "cell {i} kind {kind} value {value} links {link0} {link1} count {count} next {next}"
            )?;
        }
        Ok(())
    }
}

// The number of a cell, or a minus for none.
#[derive(Clone, Copy)]
struct Place(Option<u16>);

impl fmt::Display for Place {
    fn fmt<W: fmt::Write>(&self, f: &mut fmt::Formatter<W>) -> fmt::Result {
        match self.0 {
            Some(cell) => write!(f, "{cell}"),
            None => f.write_str("-"),
        }
    }
}
