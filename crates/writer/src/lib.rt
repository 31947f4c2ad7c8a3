// Document 02, slip 2: a model as the bytes of its file. Definitions; the functions are those of `writer_segment` and `writer_file`.
#![tactic(auto)]
