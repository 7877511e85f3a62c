// What passes between the crates: refusals, the two kinds of offset, areas, tile-part records, and a record's 21 bytes; and
// the standard's marker codes and places of fields.
#![tactic(auto)]

pub mod markers;
pub mod siz;
pub mod table;

ghost use Rattle.std.specs.Prelude.{◌≡◌, ◌+◌, ◌≤◌, ◌<◌, ◌^◌, length};
ghost use Rattle.numbers.specs.Bytes.{put};
ghost use Rattle.types.specs.Refusals.{refusal, refusal_number, answer_number, answer_value};
ghost use Rattle.types.specs.Offsets.{in_file, in_codestream};
ghost use Rattle.types.specs.Row.{row_bytes, numbers_at, number_bytes, entry_at, row_of};

// Why something is refused (docs/RULES.md, "Refusals"), by the number that C and users get.
#[derive(Clone, Copy, PartialEq, Eq)]
pub enum Reason {
    NoSoc = 1,
    NoSiz = 2,
    SegmentPastEnd = 3,
    TlmTooShort = 4,
    TlmFormUnknown = 5,
    NoTilePart = 6,
    TilePartCutShort = 7,
    SotLengthWrong = 8,
    TilePartPastEnd = 9,
    TileOutside = 10,
    FileTooShort = 11,
    NotJpeg2000 = 12,
    BoxCutShort = 13,
    NoCodestreamBox = 14,
    CodestreamBoxTooShort = 15,
    BoxTooLong = 16,
    OutputTooSmall = 17,
    TableTooSmall = 18,
    HeaderTooLong = 19,
    SizCutShort = 20,
    SizNotFound = 21,
    ImageEndsBeforeItStarts = 22,
    ListingTooLong = 23,
    ComponentsNotHeld = 24,
    SubsamplingOf0 = 25,
    TlmTooManyEntries = 26,
    BoxDoesNotFit = 27,
    BoxLengthWrong = 28,
    BoxesTooDeep = 29,
    NoGrid = 30,
    NoSuchTile = 31,
    TlmNumberRepeated = 32,
    CapOutOfPlace = 33,
    CapLengthWrong = 34,
}

// A refusal: why, and its place, an offset whose start depends on the reason; for OutputTooSmall and TableTooSmall it is what is
// needed.
#[derive(Clone, Copy)]
pub struct Refusal {
    pub reason: Reason,
    pub place: u64,
}

impl Refusal {
    pub fn number(self) -> u32
        ensures { result ≡ refusal_number self }
    {
        self.reason as u32
    }
}

pub fn refuse<T>(reason: Reason, place: u64) -> Result<T, Refusal>
    ensures { result ≡ Err (refusal reason place) }
{
    Err(Refusal { reason, place })
}

// An answer for C: its number, and in `value` what it gives or the refusal's place.
pub fn tell(answer: Result<u64, Refusal>, value: &mut u64) -> u32
    ensures value { result ≡ answer_number answer }
    ensures value_after { value.new ≡ answer_value answer }
{
    match answer {
        Ok(given) => {
            *value = given;
            0
        }
        Err(refusal) => {
            *value = refusal.place;
            refusal.number()
        }
    }
}

// Counted from the start of the file.
#[derive(Clone, Copy)]
pub struct FileOffset(pub u64);

// Counted from the start of the codestream.
#[derive(Clone, Copy)]
pub struct CodestreamOffset(pub u64);

impl CodestreamOffset {
    // A position in the codestream's bytes as an offset, and an offset as a position: here alone does one become the other.
    pub fn at(position: usize) -> CodestreamOffset
        ensures { result.0 ≡ position }
    {
        CodestreamOffset(position as u64)
    }

    pub fn position(self) -> usize
        ensures { result ≡ self.0 }
    {
        self.0 as usize
    }

    // Where a place of the codestream that starts at `start` lies in the file.
    pub fn in_file(self, start: FileOffset) -> Option<FileOffset>
        ensures { result ≡ in_file self start }
    {
        let at = start.0.checked_add(self.0)?;
        Some(FileOffset(at))
    }
}

impl FileOffset {
    // An offset as a position in the file's bytes.
    pub fn position(self) -> usize
        ensures { result ≡ self.0 }
    {
        self.0 as usize
    }

    // Where a place of the file lies in the codestream that starts at `start`.
    pub fn in_codestream(self, start: FileOffset) -> Option<CodestreamOffset>
        ensures { result ≡ in_codestream self start }
    {
        let at = self.0.checked_sub(start.0)?;
        Some(CodestreamOffset(at))
    }
}

// An area of the reference grid (ISO/IEC 15444-1, B.2): from x0, y0 on, to x1, y1, which no longer belong to it.
#[derive(Clone, Copy)]
pub struct Area {
    pub x0: u32,
    pub y0: u32,
    pub x1: u32,
    pub y1: u32,
}

// A tile-part's number among its tile's, and how many its tile has. No `Option`: of a record that says `None` nobody would know what
// it has none of.
#[derive(Clone, Copy)]
pub enum PartNumbers {
    // As its SOT has them; a TNsot of 0 says that the count is not given there.
    Known { tpsot: u8, tnsot: u8 },
    // A TLM entry has neither.
    NotKnown,
}

// One tile-part: its tile (Isot), its numbers, where it starts in the codestream, and its length from the SOT marker on. The
// numbers stand second, where they make a record no longer: 24 bytes.
#[derive(Clone, Copy)]
pub struct TilePartEntry {
    pub tile_index: u16,
    pub numbers: PartNumbers,
    pub offset: CodestreamOffset,
    pub length: u64,
}

// Where a tile-part ends.
pub fn end_of(entry: TilePartEntry) -> CodestreamOffset
    requires { entry.offset.0 + entry.length < 2 ^ 64 }
    ensures { result.0 ≡ entry.offset.0 + entry.length }
{
    let from = entry.offset;
    CodestreamOffset(from.0 + entry.length)
}

// The bytes of a record in a lent table: index 2, offset 8, length 8, numbers 3, which are 1, TPsot and TNsot where they are
// known, and else 0, 0, 0.
pub const ROW: usize = 21;

// Any first byte but 1 says that they are not known.
fn read_numbers(table: &[u8], at: usize) -> PartNumbers
    requires { at + 3 ≤ length table.now }
    ensures { result ≡ numbers_at table.now at }
{
    let told = table[at];
    let tpsot = table[at + 1];
    let tnsot = table[at + 2];
    if told == 1 {
        PartNumbers::Known { tpsot, tnsot }
    } else {
        PartNumbers::NotKnown
    }
}

fn write_numbers(table: &mut [u8], at: usize, numbers: PartNumbers)
    requires { at + 3 ≤ length table.old }
    ensures { table.new ≡ put table.old at (number_bytes numbers) }
{
    match numbers {
        PartNumbers::Known { tpsot, tnsot } => {
            table[at] = 1;
            table[at + 1] = tpsot;
            table[at + 2] = tnsot;
        }
        PartNumbers::NotKnown => {
            table[at] = 0;
            table[at + 1] = 0;
            table[at + 2] = 0;
        }
    }
}

pub fn read_row(table: &[u8], at: usize) -> TilePartEntry
    requires { at + row_bytes ≤ length table.now }
    ensures { result ≡ entry_at table.now at }
{
    let tile_index = numbers::read_u16(table, at);
    let offset = CodestreamOffset(numbers::read_u64(table, at + 2));
    let length = numbers::read_u64(table, at + 10);
    let known = read_numbers(table, at + 18);
    TilePartEntry {
        tile_index,
        numbers: known,
        offset,
        length,
    }
}

pub fn write_row(table: &mut [u8], at: usize, entry: TilePartEntry)
    requires { at + row_bytes ≤ length table.old }
    ensures { table.new ≡ put table.old at (row_of entry) }
{
    let offset = entry.offset;
    let known = entry.numbers;
    numbers::write_u16(table, at, entry.tile_index);
    numbers::write_u64(table, at + 2, offset.0);
    numbers::write_u64(table, at + 10, entry.length);
    write_numbers(table, at + 18, known);
}
