// The numbers of the forms, as specs/Limits.antt has them.
pub const UTI_LEAST: usize = 21;

pub const UTI_MOST: usize = 52;

pub const EVENT_SIZE: usize = 4;

pub const PACKAGE_MOST: usize = 100;

pub const CURRENCY_SIZE: usize = 3;

pub const LOCATION_SIZE: usize = 2;

pub const LEI_BODY: usize = 18;

pub const LEI_CHECK: usize = 2;

pub const LEI_MODULUS: u32 = 97;
