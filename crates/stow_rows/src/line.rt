//! The lines of a table.

/// What stands behind the words of a piece.
#[derive(Clone, Copy)]
pub enum End {
    LineFeed,
    /// CR and LF.
    Both,
    Nothing,
    /// Of what is expected: anything up to the end of the line.
    More,
}

/// A piece of a text.
#[derive(Clone, Copy)]
pub enum Piece<'a> {
    Words(&'a str, End),
    /// A text of this name.
    Named(&'a str),
    /// No more than so many bytes of the text so far.
    Cut(u32),
    /// In the text so far another line in place of the one with this number, counted from 1.
    Change(u32, &'a str),
}

/// What a table orders. All but a piece ends the text that was being made.
#[derive(Clone, Copy)]
pub enum Order<'a> {
    /// A case begins, over an empty folder, none of whose calls fails.
    Case(&'a str),
    /// The calls of the case's folder with these numbers fail, and it is empty again.
    Fail(&'a str),
    /// The puts with these numbers of the sinks of the case's later runs fail.
    Mute(&'a str),
    /// The pieces that follow are a text of this name.
    Text(&'a str),
    /// The pieces that follow are a file of the folder.
    Lay(&'a str),
    /// The program is run on these words.
    Run(&'a str),
    /// The program is run without any words, even its own name.
    Bare,
    /// The program is run on these words, at a gate where two workers wait for each other.
    Meet(&'a str),
    /// The program is run on words once for each length of a file's text, cut so.
    Cuts(Cuts<'a>),
    /// The last run ended with this status.
    Status(u8),
    /// The last run printed the pieces that follow.
    Prints,
    /// The file is the pieces that follow.
    Holds(&'a str),
    /// The file ends with the pieces that follow.
    Ends(&'a str),
    /// A file of this name stands in the folder.
    Stands(&'a str),
    /// No file of this name does.
    Absent(&'a str),
}

/// Runs on the first bytes of a text, which has the name of the file in which they are laid.
#[derive(Clone, Copy)]
pub struct Cuts<'a> {
    pub name: &'a str,
    pub from: u32,
    pub to: u32,
    pub words: &'a str,
}

/// A line of a table.
#[derive(Clone, Copy)]
pub enum Line<'a> {
    /// Nothing, or a comment.
    Blank,
    Piece(Piece<'a>),
    /// The pieces up to `done` are taken once for each number from the first to the second.
    Each(u32, u32),
    Done,
    Order(Order<'a>),
}

/// A line's first word and what follows the space behind it.
fn parted(line: &str) -> (&str, &str) {
    match line.split_once(' ') {
        Some(parts) => parts,
        None => (line, ""),
    }
}

fn numbered(text: &str) -> Option<(u32, &str)> {
    let (number, rest) = parted(text);
    Some((number.parse().ok()?, rest))
}

fn cuts_of(text: &str) -> Option<Cuts<'_>> {
    let (name, rest) = parted(text);
    let (from, rest) = numbered(rest)?;
    let (to, words) = numbered(rest)?;
    Some(Cuts {
        name,
        from,
        to,
        words,
    })
}

fn piece_of<'a>(word: &str, rest: &'a str) -> Option<Piece<'a>> {
    match word {
        "|" => Some(Piece::Words(rest, End::LineFeed)),
        "]" => Some(Piece::Words(rest, End::Both)),
        "-" => Some(Piece::Words(rest, End::Nothing)),
        "~" => Some(Piece::Words(rest, End::More)),
        "use" => Some(Piece::Named(rest)),
        "cut" => Some(Piece::Cut(rest.parse().ok()?)),
        "line" => {
            let (number, text) = numbered(rest)?;
            Some(Piece::Change(number, text))
        }
        _ => None,
    }
}

fn order_of<'a>(word: &str, rest: &'a str) -> Option<Order<'a>> {
    match word {
        "case" => Some(Order::Case(rest)),
        "fail" => Some(Order::Fail(rest)),
        "mute" => Some(Order::Mute(rest)),
        "text" => Some(Order::Text(rest)),
        "lay" => Some(Order::Lay(rest)),
        "run" => Some(Order::Run(rest)),
        "bare" => Some(Order::Bare),
        "meet" => Some(Order::Meet(rest)),
        "cuts" => Some(Order::Cuts(cuts_of(rest)?)),
        "status" => Some(Order::Status(rest.parse().ok()?)),
        "prints" => Some(Order::Prints),
        "holds" => Some(Order::Holds(rest)),
        "ends" => Some(Order::Ends(rest)),
        "stands" => Some(Order::Stands(rest)),
        "absent" => Some(Order::Absent(rest)),
        _ => None,
    }
}

/// What a line says, none where it isn't in the form of a table.
pub fn line_of(line: &str) -> Option<Line<'_>> {
    let (word, rest) = parted(line);
    match word {
        "" | "#" => Some(Line::Blank),
        "done" => Some(Line::Done),
        "each" => {
            let (from, rest) = numbered(rest)?;
            Some(Line::Each(from, rest.parse().ok()?))
        }
        _ => match piece_of(word, rest) {
            Some(piece) => Some(Line::Piece(piece)),
            None => Some(Line::Order(order_of(word, rest)?)),
        },
    }
}
