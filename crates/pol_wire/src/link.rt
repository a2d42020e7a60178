/// The four ends of one connection: where its bytes come from and go to, and its clock and words.
#[derive(Drop)]
pub struct Link<S, K, C, W> {
    pub source: S,
    pub sink: K,
    pub clock: C,
    pub words: W,
}
