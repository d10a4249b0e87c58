// No code: 01's bench sheet, one statement over a list of cases (specs/BenchSheet.antt), each computed.
#![tactic(auto)]
