use strand_base::MOST_DATA;

/// The most bytes of a machine file.
pub const MOST_MACHINE_BYTES: u32 = 4_096;

/// The most bytes of an image, of either version.
pub const MOST_IMAGE_BYTES: u32 = 8_388_608;

/// The most bytes of an assembler text and a schedule.
pub const MOST_FILE_BYTES: u32 = 16_777_216;

/// The most bytes of a crash image: eight for each word.
pub const MOST_CRASH_BYTES: u32 = 8 * MOST_DATA;
