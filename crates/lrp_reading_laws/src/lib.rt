//! Laws of reading: every text is a database, a query, a file or edits, or has a fault of one. It is one at most, and
//! then it has no fault; and it has one fault at most.
//! Each law is the contract of a function that does nothing.
#![tactic(auto)]

mod laws;

pub use laws::{
    databases_have_no_fault, databases_have_one_fault, every_file_is_well_sorted_or_faulty,
    every_query_is_well_sorted_or_faulty, every_text_is_a_database_or_faulty,
    every_text_is_a_file_or_faulty, every_text_is_a_query_or_faulty,
    every_text_is_a_tense_query_or_faulty, every_text_is_edits_or_faulty,
    expanded_files_have_data_texts, expanded_texts_are_data_texts, files_have_no_fault,
    files_have_one_fault, queries_have_no_fault, queries_have_one_fault, read_texts_are_data_texts,
    tense_queries_have_no_fault, tense_queries_have_one_fault, texts_are_of_one_database,
    texts_are_of_one_file, texts_are_of_one_query, well_sorted_queries_have_no_fault,
};
