//! The fields of a label, in one buffer.

ghost use Rattle.std.specs.Prelude.{◌≡◌, ◌<◌, ◌≤◌, ◌+◌, ◌*◌, ◌^◌, ◌++◌, ◌∷◌, [], ℕ, pos, length, map, replicate, MatchOption, IfOk, OnOk};
ghost use Rattle.std.specs.List.{All, flat_map};
ghost use Rattle.dl_term.specs.State.{cell, item};
ghost use Rattle.dl_model.specs.Steps.{set_cell};
ghost use Rattle.dl_state.specs.Laid.{column_of, columns_of, AreLaidOut};
ghost use Rattle.dl_state.specs.Places.{HasPlace, IsOutside};
ghost use Rattle.dl_state.specs.Shapes.{shape_column, shape_width, IsFilled};

use crate::shape::FieldShape;
use sqlite_items::at;
use std::alloc::{AllocError, Global};
use std::marker::Model;

// Where the rows of a field stand: the first number of the first one, and the numbers of each.
#[derive(Clone, Copy)]
pub(crate) struct Column {
    start: usize,
    width: usize,
}

// The fields and rows of a label. Contracts see, for each field, the row of each node.
#[derive(Drop)]
pub(crate) struct Board {
    nodes: usize,
    columns: Vec<Column>,
    cells: Vec<i64>,
}

impl Model for Board {
    ghost use Rattle.std.specs.Prelude.{ℤ, List, length};

    ghost Value = { List (List (List ℤ)) };

    ghost use Rattle.dl_state.specs.Laid.{columns_of, AreLaidOut};

    ghost view = { λ b. columns_of b.nodes b.cells.items b.columns.items };

    ghost invariant = { λ b. AreLaidOut b.nodes 0 b.columns.items (length b.cells.items) };
}

impl Board {
    // The board of these fields, each with its first values.
    pub(crate) fn lay(alloc: Global, nodes: u32, shapes: &[FieldShape]) -> Result<Board, AllocError>
        requires { All (IsFilled nodes) shapes.now }
        ensures { IfOk result (λ board. board ≡ map (shape_column nodes) shapes.now) }
    {
        let count = nodes as usize;
        let mut columns = Vec::new(alloc);
        let mut cells = Vec::new(alloc);
        for shape in shapes {
            lay_field(&mut columns, &mut cells, count, shape)?;
        }
        Ok(Board {
            nodes: count,
            columns,
            cells,
        })
    }

    // The number at a place, or 0 where there is none.
    pub(crate) fn read(&self, field: u8, node: i128, index: i128) -> i64
        ensures { result ≡ cell self.now field node index }
    {
        match at(self.columns.as_slice(), usize::from(field)) {
            Some(column) => read_column(self.cells.as_slice(), self.nodes, *column, node, index),
            None => 0,
        }
    }

    // Writes a number at a place that exists.
    pub(crate) fn set(&mut self, field: u8, node: u32, index: u32, value: i64)
        requires { HasPlace self.old field node index }
        ensures { self.new ≡ set_cell self.old field node (pos index) value }
    {
        let column = self.columns[usize::from(field)];
        let place = place(column, node as usize, index as usize);
        self.cells[place] = value;
    }
}

// Where a number stands in the buffer.
fn place(column: Column, node: usize, index: usize) -> usize
    requires { column.start + (node * column.width + index) < 2 ^ 64 }
    ensures { result ≡ column.start + (node * column.width + index) }
{
    column.start + (node * column.width + index)
}

// The number as an index, where it is one below the limit.
fn below(limit: usize, number: i128) -> Option<usize>
    ensures { MatchOption result (IsOutside limit number) (λ n. (number ≡ pos n) × (n < limit)) }
{
    match usize::try_from(number) {
        Ok(index) => { if index < limit { Some(index) } else { None } }
        Err(_) => None,
    }
}

// The number of a field at a node and an index, or 0 where there is none.
fn read_column(cells: &[i64], nodes: usize, column: Column, node: i128, index: i128) -> i64
    requires { column.start + nodes * column.width ≤ length cells.now }
    ensures { result ≡ item (item (column_of nodes cells.now column) node []) index (pos 0) }
{
    let Some(row) = below(nodes, node) else {
        return 0;
    };
    let Some(column_index) = below(column.width, index) else {
        return 0;
    };
    cells[place(column, row, column_index)]
}

// Adds a field behind the others.
fn lay_field(
    columns: &mut Vec<Column>,
    cells: &mut Vec<i64>,
    nodes: usize,
    shape: &FieldShape,
) -> Result<(), AllocError>
    requires laid { AreLaidOut nodes 0 columns.old.items (length cells.old.items) }
    requires filled { IsFilled nodes shape.now }
    requires small { nodes < 2 ^ 32 }
    ensures laid { OnOk result (AreLaidOut nodes 0 columns.new.items (length cells.new.items)) }
    ensures columns { OnOk result (columns_of nodes cells.new.items columns.new.items ≡ columns_of nodes cells.old.items columns.old.items ++ shape_column nodes shape.now ∷ []) }
{
    let start = cells.len();
    let width = width_of(nodes, shape);
    lay_rows(cells, shape.first.as_slice(), width)?;
    columns.push(Column { start, width })?;
    Ok(())
}

// How many numbers a node has.
fn width_of(nodes: usize, shape: &FieldShape) -> usize
    ensures { result ≡ shape_width nodes shape.now }
{
    if shape.row { nodes } else { 1 }
}

// Adds a row of this width for each value.
fn lay_rows(cells: &mut Vec<i64>, first: &[i64], width: usize) -> Result<(), AllocError>
    requires { width < 2 ^ 32 }
    ensures { OnOk result (cells.new.items ≡ cells.old.items ++ flat_map (replicate width) first.now) }
{
    for value in first {
        let end = cells.len() + width;
        cells.resize(end, *value)?;
    }
    Ok(())
}
