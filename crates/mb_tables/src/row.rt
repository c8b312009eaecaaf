/// What the tables say of one block size (RFC 5053 sections 5.4.2.3, 5.4.4.4 and 5.7).
#[derive(Clone, Copy, Debug, PartialEq, Eq)]
pub struct Row {
    /// K, the source symbols of a block.
    pub k: u16,
    /// J(K), the systematic index.
    pub j: u16,
    /// S, the LDPC symbols.
    pub s: u16,
    /// L', the number that the walks of an LT row are taken modulo.
    pub lp: u16,
}
