// The kinds of a register line, by their numbers in the paper.
pub const COAL: u8 = 1;

pub const GAS: u8 = 2;

pub const HYDRO: u8 = 3;

pub const WIND: u8 = 4;

pub const PHOTOVOLTAIC: u8 = 5;

pub const SOLAR_THERMAL: u8 = 6;

pub const PUMPED_STORAGE: u8 = 7;

pub const NEW_STORAGE: u8 = 8;
