// How many may ever be made, how many may stand, and how long texts may be.

/// Folders but the root that may ever be made.
pub const MAX_FOLDERS: u32 = 10_000;

/// Groups that may ever be made.
pub const MAX_GROUPS: u32 = 100_000;

/// Subjects that may ever be made.
pub const MAX_SUBJECTS: u32 = 500_000;

/// Immediate memberships that may stand.
pub const MAX_ROWS: usize = 2_000_000;

/// Grants that may stand.
pub const MAX_GRANTS: usize = 500_000;

/// Inherits that may stand.
pub const MAX_INHERITS: usize = 500_000;

/// Definitions of attributes that may ever be made.
pub const MAX_DEFINITIONS: u32 = 10_000;

/// Attributes that may ever be made.
pub const MAX_ATTRIBUTES: u32 = 10_000;

/// Assignments of attributes that may ever be made.
pub const MAX_ASSIGNS: u32 = 500_000;

/// Values of assignments that may stand.
pub const MAX_VALUES: usize = 500_000;

/// Rules that may ever be made.
pub const MAX_RULES: u32 = 10_000;

/// Loader jobs that may ever be made.
pub const MAX_JOBS: u32 = 1_000;

/// Consumers of the change log that may ever be made.
pub const MAX_CONSUMERS: usize = 100;

/// Commands that a history may have.
pub const MAX_HISTORY: usize = 4_000_000;

/// Bytes of a name.
pub const MAX_NAME: usize = 1_000;

/// Bytes of a display text.
pub const MAX_DISPLAY: usize = 255;

/// Records of a table.
pub const MAX_RECORDS: u64 = 200_000;

/// Bytes of a line that asks something.
pub const MAX_LINE: usize = 8_388_608;
