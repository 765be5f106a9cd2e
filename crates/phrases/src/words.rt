// The words and signs of a text, by their codes: the bytes of each, put together in base 256.
// Stays: the grammar's definitions (`Words`) tell a word by this code, so an enum would name the thirty words once more, and map them back.
// null
pub const NULL: usize = 1853189228;

// wait
pub const WAIT: usize = 2002872692;

// on
pub const ON: usize = 28526;

// until
pub const UNTIL: usize = 504364296556;

// for
pub const FOR: usize = 6713202;

// after
pub const AFTER: usize = 418330731890;

// if
pub const IF: usize = 26982;

// then
pub const THEN: usize = 1952998766;

// else
pub const ELSE: usize = 1701606245;

// end
pub const END_WORD: usize = 6647396;

// while
pub const WHILE: usize = 512852847717;

// loop
pub const LOOP: usize = 1819242352;

// delayed
pub const DELAYED: usize = 28259013837284708;

// not
pub const NOT: usize = 7237492;

// and
pub const AND: usize = 6385252;

// or
pub const OR: usize = 28530;

// xor
pub const XOR: usize = 7892850;

// mod
pub const MOD: usize = 7171940;

// rem
pub const REM: usize = 7497069;

// :=
pub const BECOMES: usize = 14909;

// <=
pub const DRIVES: usize = 15421;

// (
pub const OPENING: usize = 40;

// )
pub const CLOSING: usize = 41;

// ;
pub const SEMICOLON: usize = 59;

// ,
pub const COMMA: usize = 44;

// =
pub const EQUALS: usize = 61;

// <
pub const LESS: usize = 60;

// +
pub const PLUS: usize = 43;

// -
pub const MINUS: usize = 45;

// *
pub const TIMES: usize = 42;

// /
pub const OVER: usize = 47;
