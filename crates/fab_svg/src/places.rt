//! Where columns and rows are, in pixels.
ghost use Rattle.std.specs.Prelude.{◌≡◌};
ghost use Rattle.fab_svg.specs.Svg.{above as above_of, across as across_of, before as before_of, behind as behind_of, down as down_of};

/// The middle of a column.
pub(crate) fn across(column: u32) -> u64
    ensures { result ≡ across_of column }
{
    240 + 230 * u64::from(column)
}

/// The middle of a row.
pub(crate) fn down(row: u32) -> u64
    ensures { result ≡ down_of row }
{
    75 + 20 * u64::from(row)
}

/// Where text in front of a node's line ends.
pub(crate) fn before(column: u32) -> u64
    ensures { result ≡ before_of column }
{
    230 + 230 * u64::from(column)
}

/// Where text behind a node's line begins.
pub(crate) fn behind(column: u32) -> u64
    ensures { result ≡ behind_of column }
{
    250 + 230 * u64::from(column)
}

/// The base of a row's text.
pub(crate) fn above(row: u32) -> u64
    ensures { result ≡ above_of row }
{
    70 + 20 * u64::from(row)
}
