// Single precision: the notation of the definitions (specs/) and the laws of values, signs,
// magnitudes and rounding that the layers above cite (proofs/). No code.
