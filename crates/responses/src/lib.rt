// PWS CANCEL RESPONSE and WRITE-REPLACE WARNING RESPONSE (document 02, 6/13): definitions and their laws. No code.
#![tactic(auto)]
