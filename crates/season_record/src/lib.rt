// Records and the sheet (02, C-24): a sheet over the records of studies, a line each as `report` writes it, has the sums of these studies. There is no code
// here: the line is written by `report`, the sheet made by `season`.
#![tactic(auto)]
