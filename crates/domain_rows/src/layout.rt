// Where the tables of a scope lie in one lent slice, one after the other: 17 types, 64 objects, 32 predicates, 16 functions,
// 4 variables, each in a row.
use text_words::names::ROW;

pub const TYPES_LENGTH: usize = 17 * ROW;

pub const OBJECTS_LENGTH: usize = 64 * ROW;

pub const PREDICATES_LENGTH: usize = 32 * ROW;

pub const FUNCTIONS_LENGTH: usize = 16 * ROW;

pub const VARIABLES_LENGTH: usize = 4 * ROW;

pub const OBJECTS_AT: usize = TYPES_LENGTH;

pub const PREDICATES_AT: usize = OBJECTS_AT + OBJECTS_LENGTH;

pub const FUNCTIONS_AT: usize = PREDICATES_AT + PREDICATES_LENGTH;

pub const VARIABLES_AT: usize = FUNCTIONS_AT + FUNCTIONS_LENGTH;

pub const TABLES_LENGTH: usize = VARIABLES_AT + VARIABLES_LENGTH;
