//! Rows and raises as records keep them.
ghost use Rattle.std.specs.Prelude.{◌≡◌, IfOk};
ghost use Rattle.certificate.specs.KeptRows.{row_of};

use std::alloc::Global;
use std::marker::Model;
use stow_data::{CallNo, HalfNo, KindNo, NoMemory, PlaceNo, Seq, StackNo};
use zero_one_rows::{Chain, Raise, Row};

/// A row in 24 bytes: the numbers of a crossing row, which few rows of a tree are, stand behind a pointer. Contracts see the row.
#[derive(Drop)]
pub struct KeptRow {
    form: Form,
}

/// The numbers of a row by its family, in the order of the text.
#[derive(Drop)]
enum Form {
    Flow(u32, CallNo, KindNo),
    Start(u32, PlaceNo),
    Cell(CallNo, HalfNo),
    Support(CallNo, HalfNo),
    Twenty(CallNo, HalfNo),
    Block(CallNo, HalfNo),
    Hatch(u32, CallNo, HalfNo, HalfNo),
    Weight(CallNo, StackNo),
    Apart(CallNo, u32, PlaceNo, PlaceNo),
    Cross(Box<Crossing>),
}

/// The numbers of a crossing row.
#[derive(Drop)]
struct Crossing {
    length: u32,
    price: u32,
    chain: Chain,
}

impl Model for KeptRow {
    ghost use Rattle.zero_one_rows.specs.declared.program.Row.{Row};
    ghost use Rattle.certificate.specs.KeptRows.{row_of};

    ghost Value = { Row };

    ghost view = { λ k. row_of k.form };
}

// The numbers of a crossing row behind a pointer.
fn crossing_of(
    alloc: Global,
    length: u32,
    price: u32,
    chain: &Chain,
) -> Result<Box<Crossing>, NoMemory>
    ensures { IfOk result (λ c. c.value ≡ record { length = length; price = price; chain = chain.now }) }
{
    let chain = Chain::of(chain.items());
    Ok(Box::new(
        alloc,
        Crossing {
            length,
            price,
            chain,
        },
    )?)
}

// The numbers of a row.
fn form_of(alloc: Global, row: &Row) -> Result<Form, NoMemory>
    ensures { IfOk result (λ form. row_of form ≡ row.now) }
{
    let form = match row {
        Row::Flow { q, call, kind } => Form::Flow(*q, *call, *kind),
        Row::Start { q, place } => Form::Start(*q, *place),
        Row::Cell { call, half } => Form::Cell(*call, *half),
        Row::Support { call, half } => Form::Support(*call, *half),
        Row::Twenty { call, half } => Form::Twenty(*call, *half),
        Row::Block { call, half } => Form::Block(*call, *half),
        Row::Hatch {
            w,
            call,
            half,
            lowest,
        } => Form::Hatch(*w, *call, *half, *lowest),
        Row::Weight { call, stack } => Form::Weight(*call, *stack),
        Row::Apart {
            call,
            index,
            first,
            second,
        } => Form::Apart(*call, *index, *first, *second),
        Row::Cross {
            length,
            price,
            chain,
        } => Form::Cross(crossing_of(alloc, *length, *price, chain)?),
    };
    Ok(form)
}

// The row with these numbers.
fn row_with(form: &Form) -> Row
    ensures { result ≡ row_of form.now }
{
    match *form {
        Form::Flow(q, call, kind) => Row::Flow { q, call, kind },
        Form::Start(q, place) => Row::Start { q, place },
        Form::Cell(call, half) => Row::Cell { call, half },
        Form::Support(call, half) => Row::Support { call, half },
        Form::Twenty(call, half) => Row::Twenty { call, half },
        Form::Block(call, half) => Row::Block { call, half },
        Form::Hatch(w, call, half, lowest) => Row::Hatch {
            w,
            call,
            half,
            lowest,
        },
        Form::Weight(call, stack) => Row::Weight { call, stack },
        Form::Apart(call, index, first, second) => Row::Apart {
            call,
            index,
            first,
            second,
        },
        Form::Cross(ref crossing) => Row::Cross {
            length: crossing.length,
            price: crossing.price,
            chain: Chain::of(crossing.chain.items()),
        },
    }
}

impl KeptRow {
    /// A row, kept. It takes memory for a crossing row alone.
    pub fn of(alloc: Global, row: &Row) -> Result<KeptRow, NoMemory>
        ensures { IfOk result (λ kept. kept ≡ row.now) }
    {
        Ok(KeptRow {
            form: form_of(alloc, row)?,
        })
    }

    /// The row. It takes no memory.
    pub fn row(&self) -> Row
        ensures { result ≡ self.now }
    {
        row_with(&self.form)
    }
}

/// A raise with its row kept. Contracts see the raise.
#[derive(Drop)]
pub struct KeptRaise {
    row: KeptRow,
    amount: i64,
}

impl Model for KeptRaise {
    ghost use Rattle.zero_one_rows.specs.declared.program.Raise.{Raise};

    ghost Value = { Raise };

    ghost view = { λ k. record { row = k.row; amount = k.amount } };
}

impl KeptRaise {
    /// A raise, kept. It takes memory for a crossing row alone.
    pub fn of(alloc: Global, raise: &Raise) -> Result<KeptRaise, NoMemory>
        ensures { IfOk result (λ kept. kept ≡ raise.now) }
    {
        Ok(KeptRaise {
            row: KeptRow::of(alloc, &raise.row)?,
            amount: raise.amount,
        })
    }

    /// The raise. It takes no memory.
    pub fn raise(&self) -> Raise
        ensures { result ≡ self.now }
    {
        Raise {
            row: self.row.row(),
            amount: self.amount,
        }
    }
}

/// A list of kept rows.
pub type KeptRowList = Seq<KeptRow>;

/// A list of kept raises.
pub type KeptRaiseList = Seq<KeptRaise>;
