//! Service characters.
ghost use Rattle.std.specs.Prelude.{◌≡◌, ◌↔◌, IsTrue};
ghost use Rattle.edifact_segments.specs.Characters.{is_control, is_release, default_service};
ghost use Rattle.edifact_segments.specs.Scanning.{IsTable, is_ordinary};
ghost use Rattle.edifact_segments.specs.Grammar.{IsService, are_apart, are_marks, is_gap_byte, is_mark};

/// The service characters of an interchange that separate (ISO 9735).
#[derive(Clone, Copy)]
pub(crate) struct Service {
    pub component: u8,
    pub element: u8,

    /// A space means that there is none.
    pub release: u8,
    pub terminator: u8,
}

/// Those of a text without UNA.
pub(crate) fn default_characters() -> Service
    ensures { result ≡ default_service }
{
    Service {
        component: b':',
        element: b'+',
        release: b'?',
        terminator: b'\'',
    }
}

impl Service {
    /// Whether the byte behind this one stands for itself.
    pub(crate) fn releases(&self, byte: u8) -> bool
        ensures { result ≡ is_release self.now byte }
    {
        byte == self.release && byte != b' '
    }

    /// Whether the byte stands as it is, outside a release: no control byte, and none of these characters.
    pub(crate) fn is_ordinary(&self, byte: u8) -> bool
        ensures { result ≡ is_ordinary self.now byte }
    {
        !is_control_byte(byte)
            && !self.releases(byte)
            && byte != self.terminator
            && byte != self.element
            && byte != self.component
    }

    /// Whether these can serve: marks, of which no two are equal, and only the release character is a space.
    pub(crate) fn serves(&self) -> bool
        ensures { IsTrue result ↔ IsService self.now }
    {
        self.are_marks() && self.are_apart()
    }

    fn are_marks(&self) -> bool
        ensures { result ≡ are_marks self.now }
    {
        is_printable_mark(self.component)
            && is_printable_mark(self.element)
            && is_printable_mark(self.release)
            && is_printable_mark(self.terminator)
            && self.component != b' '
            && self.element != b' '
            && self.terminator != b' '
    }

    fn are_apart(&self) -> bool
        ensures { result ≡ are_apart self.now }
    {
        self.component != self.element
            && self.component != self.release
            && self.component != self.terminator
            && self.element != self.release
            && self.element != self.terminator
            && self.release != self.terminator
    }
}

/// Service characters, and for each byte whether it stands as it is, so that a byte takes one look-up.
#[derive(Drop)]
pub(crate) struct Scanner {
    pub service: Service,
    pub ordinary: [bool; 256],
}

impl Scanner {
    pub(crate) fn of(service: Service) -> Scanner
        ensures service { result.service ≡ service }
        ensures table { IsTable service result.ordinary }
    {
        Scanner {
            service,
            ordinary: table_of(&service),
        }
    }
}

/// For each byte, whether it stands as it is.
fn table_of(service: &Service) -> [bool; 256]
    ensures { IsTable service.now result }
{
    let mut table = [false; 256];
    for byte in 0..256 {
        table[byte] = service.is_ordinary(byte as u8);
    }
    table
}

/// A byte that no segment has.
pub(crate) fn is_control_byte(byte: u8) -> bool
    ensures { result ≡ is_control byte }
{
    byte < 0x20 || byte == 0x7f
}

/// CR or LF.
pub(crate) fn is_line_end(byte: u8) -> bool
    ensures { result ≡ is_gap_byte byte }
{
    byte == b'\r' || byte == b'\n'
}

/// A printable ASCII character other than a letter or digit.
fn is_printable_mark(byte: u8) -> bool
    ensures { result ≡ is_mark byte }
{
    matches!(byte, 32..=47 | 58..=64 | 91..=96 | 123..=126)
}
