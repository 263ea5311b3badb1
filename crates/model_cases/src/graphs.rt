//! Graphs in lines, and their loops.

use aadl_loops::first_on_loop;
use case_files::{Trouble, number, pieces, tell_line, tell_number};
use hw_text::{NoMemory, Rows, TextBuf, front};
use std::alloc::Global;

/// The rows of a graph, each with the numbers of the rows that it leads to.
type Edges = Rows<Rows<usize>>;

/// `first_on_loop ROW / ROW / ..`: the first row that lies on a loop.
pub fn tell_first_on_loop(alloc: Global, text: &[u8], out: &mut TextBuf) -> Result<(), Trouble> {
    let edges = edges_of(alloc, text)?;
    match first_on_loop(alloc, edges.rows())? {
        Some(row) => tell_number(out, b"row", row as i128)?,
        None => tell_line(out, b"no loop")?,
    }
    Ok(())
}

fn edges_of(alloc: Global, text: &[u8]) -> Result<Edges, Trouble> {
    let mut edges = Edges::new(alloc);
    for row in pieces(alloc, text, b'/')?.rows() {
        let from = edges.len();
        edges.push(row_of(alloc, row.rows(), from)?)?;
    }
    Ok(edges)
}

/// Where the row of this number leads to: words between spaces, of which `.` leads nowhere.
fn row_of(alloc: Global, text: &[u8], from: usize) -> Result<Rows<usize>, Trouble> {
    let mut row = Rows::new(alloc);
    for word in pieces(alloc, text, b' ')?.rows() {
        match word.rows() {
            b"" | b"." => {}
            word => row.push(to_row(word, from)?)?,
        }
    }
    Ok(row)
}

/// A number of a row; behind a sign it counts from the row where it stands.
fn to_row(word: &[u8], from: usize) -> Result<usize, Trouble> {
    let start = match front(word) {
        Some((b'+' | b'-', _)) => from as i128,
        _ => 0,
    };
    let Some(row) = number(word).and_then(|steps| start.checked_add(steps)) else {
        return Err(Trouble::BadLine);
    };
    match usize::try_from(row) {
        Ok(row) => Ok(row),
        Err(_) => Err(Trouble::BadLine),
    }
}
