// Sizes, counts and places of document 01, as specs/Numbers.antt defines them.
// ranges of simple values
pub const LOWEST_NUMBER: i64 = -1000000;

pub const HIGHEST_NUMBER: i64 = 1000000;

// of a count of hundredths, and how many there are in a whole
pub const LOWEST_COUNT: i64 = -100000000;

pub const HIGHEST_COUNT: i64 = 100000000;

pub const PARTS_OF_ONE: i64 = 100;

pub const LOWEST_CHARACTER: u8 = 32;

pub const HIGHEST_CHARACTER: u8 = 126;

pub const LIST_PLACES: usize = 8;
// bounds of bodies
pub const BODY_CELLS: usize = 64;

pub const BODY_NODES: usize = 32;

pub const BODY_DEPTH: usize = 4;

pub const RECORD_ATTRIBUTES: u8 = 8;
// a body by value
pub const BODY_BYTES: usize = 96;
// attributes are numbered below this
pub const ATTRIBUTE_NUMBERS: usize = 64;
// tables and the caller's buffers
pub const MOST_VARIABLES: usize = 16;

pub const MOST_TYPES: usize = 32;

pub const MOST_EXPRESSIONS: usize = 512;

pub const MOST_INSTRUCTIONS: usize = 256;

pub const MOST_LIMITS: usize = 16;

pub const MOST_READINGS: usize = 16;
// procedures, and the parameters of each sort that one may have
pub const MOST_PROCEDURES: usize = 8;

pub const MOST_PARAMETERS: usize = 4;
// document 01: cells, marks, sheet
pub const CELLS_LENGTH: usize = 1024;

// those of one variable
pub const STATE_WORDS: usize = 2;

pub const STATES_LENGTH: usize = 32;

pub const LAYOUT_LENGTH: usize = 1024;

// the present bodies of all variables
pub const VARIABLE_BODIES_LENGTH: usize = 1536;
// calls that may be open at once, and the same three for all of them
pub const MOST_CALLS: usize = 16;

pub const OPEN_CELLS_LENGTH: usize = 16384;

pub const OPEN_STATES_LENGTH: usize = 512;

pub const OPEN_BODIES_LENGTH: usize = 24576;
// the present bodies that the checked run hands out: the profile's, then those of the open calls
pub const PRESENT_BODIES_LENGTH: usize = 26112;
// the code's own: the bodies of all type rows, a variable's limit, the limits of all variables, and the operand stack, with a
// value for each expression row and one more
pub const TYPE_BODIES_LENGTH: usize = 3072;

pub const LIMIT_CELLS: usize = 3;

pub const LIMIT_CELLS_LENGTH: usize = 48;

pub const STACK_LENGTH: usize = 32832;
// files
pub const ROW_BYTES: usize = 10;
// a name, with its zeros
pub const NAME_BYTES: usize = 8;

pub const BLOCK_BYTES: usize = 512;

pub const BLOCK_ROWS: usize = 50;
// the bytes before a block's rows, and those of its rows
pub const HEADER_BYTES: usize = 8;

pub const AREA_BYTES: usize = 500;
// the 32-bit words that a block's check goes over, and where it stands
pub const CHECKED_WORDS: usize = 127;

pub const CHECK_PLACE: usize = 508;

pub const MOST_BLOCKS: usize = 22;
// the longest file, and the row areas of its blocks
pub const LONGEST_FILE: usize = 11264;

pub const AREAS_LENGTH: usize = 11000;
// the reader's buffer: 1,096 rows
pub const ROWS_LENGTH: usize = 10960;
// sections
pub const DECLARATION_SECTION: u8 = 1;

pub const TYPE_SECTION: u8 = 2;

pub const EXPRESSION_SECTION: u8 = 3;

pub const INSTRUCTION_SECTION: u8 = 4;

pub const LIMIT_SECTION: u8 = 5;

pub const PROCEDURE_SECTION: u8 = 6;
// the code's own: the table of procedure 0's variables, behind which those of the others stand two apart, and the first table that no
// procedure has
pub const VARIABLE_TABLE: u8 = 8;

pub const TABLES_END: usize = 23;
// places (document 01: place)
// a reading's is this and its index
pub const READING_PLACE: usize = 256;
// in the type check: an instruction's, and a declaration's
pub const INSTRUCTION_PLACE: usize = 512;

pub const DECLARATION_PLACE: usize = 768;
// the report
pub const REPORT_BUDGET: u16 = 1000;
