// Where cells stand in the tables, as specs/Tables.antt says; the special roles stand from 0 on.
pub const USER: usize = 8;

pub const GROUP: usize = 24;

pub const SUBJECT: usize = 32;

pub const STAND: usize = 96;

pub const GRANT: usize = 192;

pub const TAKE: usize = 256;

pub const DEFAULT: usize = 496;

pub const GROUP_REACH: usize = 512;

pub const USER_REACH: usize = 1024;

pub const FORCE: usize = 2048;

pub const OBJECT: usize = 4096;
